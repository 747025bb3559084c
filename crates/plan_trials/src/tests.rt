use crate::limits::crowded_plan;
use crate::slow::slow_pairs;
use fleet_base::{Pair, PairId, PairTable, Side, SoundPlan, Visit};
use plan_graph::{PlanGraph, RankRoom, Ranked, rank};
use plan_scenes::{Dice, SQUARE, drawn_walks, listed, sound_plan, text_of};
use std::alloc::Global;
use std::process::Abort;
use std::test::Fail;
use switch_pairs::{PairsError, pairs};

/// An open map.
pub const OPEN: &[u8] = b"type octile\nheight 3\nwidth 6\nmap\n......\n......\n......\n";

/// A pair in short: robot and number of its lower and of its higher visit, and its side.
type Row = ((u32, u32), (u32, u32), Side);

fn pair_of(row: &Row) -> Pair {
    let visit = |at: (u32, u32)| Visit {
        robot: at.0,
        index: at.1,
    };
    Pair {
        lower: visit(row.0),
        higher: visit(row.1),
        first: row.2,
    }
}

#[test]
fn pairs_stand_in_their_order(rt: HostRuntime) -> Result<(), Fail> {
    let rows: [(&[u8], &[Row]); 4] = [
        (
            b"Agent 0: (0,0)->(1,0)->(1,1)->(1,2)->(1,3)->(1,4)->(1,5)->(2,5)\nAgent 1: (0,5)->(0,5)->(0,5)->(0,5)->(0,5)->(0,5)->(0,5)->(1,5)->(1,4)->(1,3)->(1,2)->(1,1)->(1,0)->(2,0)\n",
            &[
                ((0, 1), (1, 6), Side::Lower),
                ((0, 2), (1, 5), Side::Lower),
                ((0, 3), (1, 4), Side::Lower),
                ((0, 4), (1, 3), Side::Lower),
                ((0, 5), (1, 2), Side::Lower),
                ((0, 6), (1, 1), Side::Lower),
            ],
        ),
        (
            b"Agent 0: (1,1)->(1,2)->(1,3)->(1,2)->(1,1)\nAgent 1: (0,2)->(0,2)->(0,2)->(0,2)->(1,2)->(2,2)\n",
            &[((0, 1), (1, 1), Side::Lower), ((0, 3), (1, 1), Side::Lower)],
        ),
        (
            b"Agent 0: (0,2)->(0,2)->(1,2)\nAgent 1: (1,1)->(1,2)->(1,3)\n",
            &[((0, 1), (1, 1), Side::Higher)],
        ),
        (b"Agent 0: (0,0)->(0,1)\nAgent 1: (2,0)->(2,1)\n", &[]),
    ];
    for (text, want) in rows {
        let plan = sound_plan(rt.alloc(), OPEN, text)?;
        let found = listed(rt.alloc(), &pairs(rt.alloc(), &plan)?)?;
        assert_eq!(rt; found.len(), want.len());
        for (pair, row) in found.iter().zip(want) {
            assert_eq!(rt; *pair, pair_of(row));
        }
    }
    Ok(())
}

#[test]
fn a_plan_has_no_more_pairs_than_the_limit(rt: HostRuntime) -> Result<(), Fail> {
    let text = crowded_plan(rt.alloc(), false)?;
    let plan = sound_plan(rt.alloc(), OPEN, text.as_bytes())?;
    assert_eq!(rt; pairs(rt.alloc(), &plan)?.len(), 1 << 20);
    let text = crowded_plan(rt.alloc(), true)?;
    let plan = sound_plan(rt.alloc(), OPEN, text.as_bytes())?;
    let refusal = pairs(rt.alloc(), &plan).err();
    assert_eq!(rt;
        refusal,
        Some(PairsError::TooMany {
            count: (1 << 20) + 1
        })
    );
    Ok(())
}

#[test]
fn pairs_of_drawn_plans_are_those_of_the_definition(rt: HostRuntime) -> Result<(), Fail> {
    let mut dice = Dice { state: 1 };
    for _ in 0..20 {
        let walks = drawn_walks(rt.alloc(), &mut dice, 40)?;
        let text = text_of(rt.alloc(), &walks)?;
        let plan = sound_plan(rt.alloc(), SQUARE, text.as_bytes())?;
        let found = listed(rt.alloc(), &pairs(rt.alloc(), &plan)?)?;
        let want = slow_pairs(rt.alloc(), &walks)?;
        assert!(rt; !want.is_empty());
        assert_eq!(rt; found, want);
    }
    Ok(())
}

/// The graph of a plan, with its pairs.
fn graph_of(alloc: Global, plan: &SoundPlan) -> Result<(PlanGraph, PairTable), Fail> {
    let table = pairs(alloc, plan)?;
    let graph = PlanGraph::new(alloc, plan, &table)?;
    Ok((graph, table))
}

/// What a ranking under these pairs' sides finds, and how many visits it lists.
fn rank_by(
    rt: &impl Abort,
    alloc: Global,
    graph: &PlanGraph,
    table: &PairTable,
) -> Result<(Ranked, usize), Fail> {
    let mut view = graph.orient(alloc)?;
    for q in 0..table.len() {
        assert!(rt; q < graph.pair_count());
        view.set(PairId(q), Some(table.pair(PairId(q)).first));
    }
    let mut room = RankRoom::new(alloc, graph)?;
    let found = rank(&view, &mut room);
    Ok((found, room.order().len()))
}

#[test]
fn sides_of_drawn_plans_rank(rt: HostRuntime) -> Result<(), Fail> {
    let mut dice = Dice { state: 7 };
    for _ in 0..20 {
        let walks = drawn_walks(rt.alloc(), &mut dice, 40)?;
        let text = text_of(rt.alloc(), &walks)?;
        let plan = sound_plan(rt.alloc(), SQUARE, text.as_bytes())?;
        let (graph, table) = graph_of(rt.alloc(), &plan)?;
        let (found, visits) = rank_by(&rt, rt.alloc(), &graph, &table)?;
        assert_eq!(rt; found, Ranked::Order);
        assert_eq!(rt; visits, graph.visit_count() as usize);
    }
    Ok(())
}
