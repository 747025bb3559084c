// All orders of the open pairs of a state, one after another.
ghost use Rattle.std.specs.Prelude.{◌≡◌, ◌<◌, All, length, IfOk};
ghost use Rattle.fleet_base.specs.Rules.{IsFleetState};
ghost use Rattle.longest_path.specs.Ticks.{IsKeptFor};

use fleet_base::{Fleet, PairId, Side};
use longest_path::{Ticks, earliest};
use plan_graph::{Oriented, PlanGraph, is_open};
use plan_scenes::view_of;
use std::alloc::Global;
use std::test::Fail;

/// The open pairs.
pub fn open_pairs(alloc: Global, graph: &PlanGraph, fleet: &Fleet) -> Result<Vec<PairId>, Fail>
    requires { IsFleetState graph.now fleet.now }
    ensures { IfOk result (λ pairs. All (λ q. q.0 < length graph.now.pairs) pairs.items) }
{
    let mut pairs = Vec::new(alloc);
    for number in 0..graph.pair_count() {
        if is_open(graph, fleet, PairId(number)) {
            pairs.push(PairId(number))?;
        }
    }
    Ok(pairs)
}

/// What the cheapest order costs that has a schedule, and how many orders have none.
pub fn cheapest(
    alloc: Global,
    graph: &PlanGraph,
    fleet: &Fleet,
    pairs: &[PairId],
) -> Result<(u64, u32), Fail>
    requires state { IsFleetState graph.now fleet.now }
    requires there { All (λ q. q.0 < length graph.now.pairs) pairs.now }
    requires few { length pairs.now < 20 }
{
    let mut ticks = Ticks::new(alloc, graph)?;
    let mut view = view_of(alloc, graph, fleet)?;
    let mut least = u64::MAX;
    let mut cyclic: u32 = 0;
    for mask in 0..1_u32 << pairs.len() {
        turn(&mut view, pairs, mask);
        match cost(&view, fleet, &mut ticks) {
            Some(cost) => least = least.min(cost),
            None => cyclic = cyclic.saturating_add(1),
        }
    }
    Ok((least, cyclic))
}

/// Gives these pairs the sides that the bits of the mask say.
fn turn(view: &mut Oriented<'_>, pairs: &[PairId], mask: u32)
    requires { All (λ q. q.0 < length view.old.graph.pairs) pairs.now }
    ensures { view.new.graph ≡ view.old.graph }
{
    let mut digits = mask;
    for q in pairs {
        let side = if digits % 2 == 0 {
            Side::Lower
        } else {
            Side::Higher
        };
        view.set(*q, Some(side));
        digits /= 2;
    }
}

/// What the order of a view costs, if it has a schedule.
fn cost(view: &Oriented<'_>, fleet: &Fleet, ticks: &mut Ticks) -> Option<u64>
    requires state { IsFleetState view.now.graph fleet.now }
    requires room { IsKeptFor view.now.graph ticks.old }
    ensures { IsKeptFor view.now.graph ticks.new }
{
    match earliest(view, fleet, ticks) {
        Ok(()) => Some(ticks.end_sum()),
        Err(_) => None,
    }
}
