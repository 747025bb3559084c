// Searches on drawn plans after a drawn delay, beside all orders of the open pairs.
ghost use Rattle.std.specs.Prelude.{IfOk};
ghost use Rattle.fleet_base.specs.Rules.{IsFleetState};

use crate::answers::{Answer, ask};
use crate::orders::{cheapest, open_pairs};
use crate::slow::{Found, slow_search};
use crate::states::with_delay;
use drawn_plays::drawn_plan;
use fleet_base::{Fleet, Report};
use fleet_core::{Judged, judge};
use plan_graph::PlanGraph;
use plan_scenes::Dice;
use std::alloc::Global;
use std::test::Fail;

/// What was seen of the searches: how many ended with nothing left and how many with a spent budget, how many branches were
/// written, and how many orders had a cycle.
#[derive(Clone, Copy)]
struct Seen {
    optimal: u32,
    spent: u32,
    branches: u64,
    cyclic: u32,
}

const NONE_YET: Seen = Seen {
    optimal: 0,
    spent: 0,
    branches: 0,
    cyclic: 0,
};

const BUDGETS: [u64; 6] = [0, 1, 2, 7, 128, 4096];

/// A drawn plan, after a drawn delay of a move that is not made.
fn drawn_state(alloc: Global, dice: &mut Dice) -> Result<(PlanGraph, Fleet), Fail>
    ensures { IfOk result (λ made. IsFleetState made.0 made.1) }
{
    let (graph, fleet) = drawn_plan(alloc, dice, 14)?;
    let late = drawn_delay(dice);
    if judge(&graph, &fleet, &late) != Judged::Accept {
        return Ok((graph, fleet));
    }
    let delayed = with_delay(alloc, &graph, &fleet, late)?;
    Ok((graph, delayed))
}

fn drawn_delay(dice: &mut Dice) -> Report {
    Report::Delay {
        robot: dice.roll().min(3),
        index: dice.roll().saturating_add(1),
        extra: dice.roll().saturating_add(1).saturating_mul(3),
        tick: 0,
    }
}

/// Whether a search answers what the plain one does.
fn is_plain(found: &Answer, plain: &Found) -> bool {
    found.cost == plain.cost
        && found.least == plain.least
        && found.switched.as_slice() == plain.switched.as_slice()
        && found.shapes.as_slice() == plain.shapes.as_slice()
}

/// Whether an answer fits the budget, and what the cheapest order costs. At most ten pairs are open.
fn fits(found: &Answer, budget: u64, cost: u64) -> bool {
    match found.least {
        None => found.cost == cost && found.branches <= budget,
        Some(least) => {
            least <= cost && cost <= found.cost && found.branches == budget && budget < 1023
        }
    }
}

fn count(seen: &mut Seen, found: &Answer) {
    seen.branches = seen.branches.saturating_add(found.branches);
    match found.least {
        None => seen.optimal = seen.optimal.saturating_add(1),
        Some(_) => seen.spent = seen.spent.saturating_add(1),
    }
}

/// Searches a state with a budget, and compares.
fn compare_at(
    alloc: Global,
    graph: &PlanGraph,
    fleet: &Fleet,
    budget: u64,
    cost: u64,
    seen: &mut Seen,
) -> Result<(), Fail>
    requires { IsFleetState graph.now fleet.now }
{
    let found = ask(alloc, graph, fleet, budget)?;
    let plain = slow_search(alloc, graph, fleet, budget)?;
    if !is_plain(&found, &plain) {
        return Err(Fail::from("the answer of the plain search"));
    }
    if !fits(&found, budget, cost) {
        return Err(Fail::from("the cost of the cheapest order"));
    }
    count(seen, &found);
    Ok(())
}

/// Searches a state with each budget, and compares, if it has few open pairs.
fn compare(alloc: Global, graph: &PlanGraph, fleet: &Fleet, seen: &mut Seen) -> Result<(), Fail>
    requires { IsFleetState graph.now fleet.now }
{
    let open = open_pairs(alloc, graph, fleet)?;
    if open.len() > 10 {
        return Ok(());
    }
    let (cost, cyclic) = cheapest(alloc, graph, fleet, &open)?;
    seen.cyclic = seen.cyclic.saturating_add(cyclic);
    for budget in BUDGETS {
        compare_at(alloc, graph, fleet, budget, cost, seen)?;
    }
    Ok(())
}

fn compare_drawn(alloc: Global, dice: &mut Dice, seen: &mut Seen) -> Result<(), Fail> {
    let (graph, fleet) = drawn_state(alloc, dice)?;
    compare(alloc, &graph, &fleet, seen)
}

#[test]
fn searches_find_the_cheapest_of_all_orders(rt: HostRuntime) -> Result<(), Fail> {
    let mut dice = Dice { state: 7 };
    let mut seen = NONE_YET;
    for _ in 0..60 {
        compare_drawn(rt.alloc(), &mut dice, &mut seen)?;
    }
    assert!(rt; seen.optimal > 50);
    assert!(rt; seen.spent > 10);
    assert!(rt; seen.branches > 100);
    assert!(rt; seen.cyclic > 100);
    Ok(())
}
