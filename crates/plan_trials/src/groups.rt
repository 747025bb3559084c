// Groups of the pairs of plans: small ones whose groups are known, and drawn ones beside a slow closure of the definition.
ghost use Rattle.std.specs.Prelude.{IfOk};
ghost use Rattle.edge_groups.specs.Mates.{AreAllMates};

use crate::tests::OPEN;
use edge_groups::{GroupTable, groups};
use fleet_base::{Pair, PairId};
use plan_graph::PlanGraph;
use plan_scenes::{Dice, SQUARE, drawn_walks, listed, sound_plan, text_of};
use std::alloc::Global;
use std::test::Fail;
use switch_pairs::pairs;

/// What is told of one pair: the name of its group, and its mates.
#[derive(Debug, PartialEq, Eq, Drop)]
struct Told {
    group: u32,
    mates: Vec<u32>,
}

/// What the table tells of each pair of a plan.
fn table_told(alloc: Global, map: &[u8], text: &[u8]) -> Result<Vec<Told>, Fail> {
    let plan = sound_plan(alloc, map, text)?;
    let table = pairs(alloc, &plan)?;
    let graph = PlanGraph::new(alloc, &plan, &table)?;
    tell(alloc, &graph, &groups(alloc, &graph)?)
}

fn tell(alloc: Global, graph: &PlanGraph, table: &GroupTable) -> Result<Vec<Told>, Fail>
    requires { AreAllMates graph.now table.now }
{
    let mut all = Vec::new(alloc);
    for number in 0..graph.pair_count() {
        let mut mates = Vec::new(alloc);
        for mate in table.mates(PairId(number)) {
            mates.push(mate.0)?;
        }
        let group = table.group_of(PairId(number)).0;
        all.push(Told { group, mates })?;
    }
    Ok(all)
}

#[test]
fn groups_of_small_plans(rt: HostRuntime) -> Result<(), Fail> {
    let rows: [(&[u8], &[(u32, &[u32])]); 5] = [
        // a corridor, from its two ends
        (
            b"Agent 0: (0,0)->(1,0)->(1,1)->(1,2)->(1,3)->(1,4)->(1,5)->(2,5)\nAgent 1: (0,5)->(0,5)->(0,5)->(0,5)->(0,5)->(0,5)->(0,5)->(1,5)->(1,4)->(1,3)->(1,2)->(1,1)->(1,0)->(2,0)\n",
            &[
                (0, &[1]),
                (0, &[0, 2]),
                (0, &[1, 3]),
                (0, &[2, 4]),
                (0, &[3, 5]),
                (0, &[4]),
            ],
        ),
        // one behind the other
        (
            b"Agent 0: (0,0)->(0,1)->(0,2)->(0,3)\nAgent 1: (1,0)->(0,0)->(0,1)->(0,2)\n",
            &[(0, &[1]), (0, &[0, 2]), (0, &[1])],
        ),
        // beside one another, but with different robots
        (
            b"Agent 0: (1,0)->(1,1)->(1,2)->(1,3)\nAgent 1: (0,1)->(0,1)->(1,1)->(2,1)\nAgent 2: (0,3)->(0,2)->(0,2)->(1,2)->(2,2)\n",
            &[(0, &[]), (1, &[])],
        ),
        // twice through one cell
        (
            b"Agent 0: (1,1)->(1,2)->(1,3)->(1,2)->(1,1)\nAgent 1: (0,2)->(0,2)->(0,2)->(0,2)->(1,2)->(2,2)\n",
            &[(0, &[]), (1, &[])],
        ),
        // to and fro between two cells, one after the other
        (
            b"Agent 0: (1,0)->(1,1)->(1,2)->(1,1)->(1,0)->(0,0)\nAgent 1: (1,4)->(1,3)->(1,3)->(1,3)->(1,2)->(1,1)->(1,2)->(1,3)\n",
            &[(0, &[1, 2]), (0, &[0, 3]), (0, &[0, 3]), (0, &[1, 2])],
        ),
    ];
    for (text, want) in rows {
        let found = table_told(rt.alloc(), OPEN, text)?;
        assert_eq!(rt; found.len(), want.len());
        for (pair, row) in found.iter().zip(want) {
            assert_eq!(rt; pair.group, row.0);
            assert_eq!(rt; pair.mates.as_slice(), row.1);
        }
    }
    Ok(())
}

fn one_apart(k: u32, n: u32) -> bool {
    k.abs_diff(n) == 1
}

fn are_mates(one: &Pair, two: &Pair) -> bool {
    one.lower.robot == two.lower.robot
        && one.higher.robot == two.higher.robot
        && one_apart(one.lower.index, two.lower.index)
        && one_apart(one.higher.index, two.higher.index)
}

/// What the definition tells of these pairs: each takes over a smaller name of a mate, as long as one does.
fn slow_told(alloc: Global, list: &[Pair]) -> Result<Vec<Told>, Fail> {
    let mut all: Vec<Told> = Vec::new(alloc);
    for (group, one) in (0..1 << 20).zip(list) {
        let mut mates = Vec::new(alloc);
        for (number, two) in (0..1 << 20).zip(list) {
            if are_mates(one, two) {
                mates.push(number)?;
            }
        }
        all.push(Told { group, mates })?;
    }
    for _ in 0..list.len() {
        take_names(&mut all);
    }
    Ok(all)
}

fn take_names(all: &mut [Told]) {
    for number in 0..all.len() {
        let least = least_name(all, number);
        all[number].group = least;
    }
}

fn least_name(all: &[Told], number: usize) -> u32 {
    let Some(one) = all.get(number) else {
        return 0;
    };
    let mut least = one.group;
    for mate in &one.mates {
        if let Some(other) = all.get(*mate as usize) {
            least = least.min(other.group);
        }
    }
    least
}

#[test]
fn groups_of_drawn_plans_are_those_of_the_definition(rt: HostRuntime) -> Result<(), Fail> {
    let mut dice = Dice { state: 11 };
    let (mut larger, mut single) = (0_usize, 0_usize);
    for _ in 0..20 {
        let walks = drawn_walks(rt.alloc(), &mut dice, 40)?;
        let text = text_of(rt.alloc(), &walks)?;
        let plan = sound_plan(rt.alloc(), SQUARE, text.as_bytes())?;
        let list = listed(rt.alloc(), &pairs(rt.alloc(), &plan)?)?;
        let want = slow_told(rt.alloc(), &list)?;
        let found = table_told(rt.alloc(), SQUARE, text.as_bytes())?;
        larger = larger.saturating_add(want.iter().filter(|pair| pair.mates.len() > 1).count());
        single = single.saturating_add(want.iter().filter(|pair| pair.mates.is_empty()).count());
        assert_eq!(rt; found, want);
    }
    assert!(rt; larger > 0 && single > 0);
    Ok(())
}
