ghost use Rattle.order_choice.specs.Searching.{IsNew};

use crate::{Line, Waiting};
use fleet_base::{Items, Memory, PairId};
use order_choice::{MadeNode, Stand};
use std::alloc::Global;
use std::test::Fail;

/// A node that waits.
fn node(alloc: Global, cost: u64) -> MadeNode
    ensures { IsNew result.stand }
{
    MadeNode {
        forced: Items::new(alloc),
        stand: Stand::Waiting { cost },
    }
}

/// Expands the next node, to children of these costs, and answers which one it was.
fn expand_next(
    alloc: Global,
    line: &mut Line,
    lower: u64,
    higher: u64,
) -> Result<Option<Waiting>, Memory> {
    let next = line.least();
    if let Some(waiting) = next {
        line.expand(waiting, PairId(0), node(alloc, lower), node(alloc, higher))?;
    }
    Ok(next)
}

#[test]
fn the_least_cost_comes_first_and_then_the_node_made_last(rt: HostRuntime) -> Result<(), Fail> {
    let mut line = Line::begin(rt.alloc(), node(rt.alloc(), 5))?;
    // The number and the cost of the node that is next, and the costs of its children.
    let table = [(0, 5, 7, 7), (2, 7, 9, 8), (1, 7, 8, 9), (5, 8, 8, 10)];
    for (number, cost, lower, higher) in table {
        let next = expand_next(rt.alloc(), &mut line, lower, higher)?;
        assert_eq!(rt; next, Some(Waiting { number, cost }));
    }
    assert_eq!(rt; line.least(), Some(Waiting { number: 7, cost: 8 }));
    assert_eq!(rt; line.count(), 9);
    Ok(())
}
