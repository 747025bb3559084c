// The cycle of two mates.
ghost use Rattle.std.specs.Prelude.{◌<◌, length};
ghost use Rattle.edge_groups.specs.Mates.{AreAllMates};

use crate::scenes::{corridor, state};
use edge_groups::{GroupTable, groups, mate_cycle};
use fleet_base::PairId;
use plan_graph::PlanGraph;
use std::test::Fail;

/// The list of two pairs, if they are mates.
fn cycle_of(graph: &PlanGraph, table: &GroupTable, a: PairId, b: PairId) -> Option<[PairId; 2]>
    requires mates { AreAllMates graph.now table.now }
    requires there { a.0 < length graph.now.pairs }
{
    for mate in table.mates(a) {
        if *mate == b {
            return Some(mate_cycle(graph, a, *mate));
        }
    }
    None
}

#[test]
fn mates_are_a_list_of_two(rt: HostRuntime) -> Result<(), Fail> {
    let (graph, _fleet) = state(rt.alloc(), &corridor(&[]))?;
    let table = groups(rt.alloc(), &graph)?;
    for (a, b, want) in [
        (1, 2, Some([PairId(1), PairId(2)])),
        (2, 1, Some([PairId(2), PairId(1)])),
        (0, 2, None),
    ] {
        if a >= graph.pair_count() {
            return Err(Fail::from("a pair"));
        }
        assert_eq!(rt; cycle_of(&graph, &table, PairId(a), PairId(b)), want);
    }
    Ok(())
}
