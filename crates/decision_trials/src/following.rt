// Drawn decisions and undoings from one state, each compared with the schedule from scratch.
ghost use Rattle.std.specs.Prelude.{◌≡◌};
ghost use Rattle.fleet_base.specs.Rules.{IsFleetState};

use crate::comparing::{compare, undecided};
use fleet_base::{Fleet, PairId, Side};
use longest_path::Live;
use plan_graph::{PlanGraph, is_open};
use plan_scenes::Dice;
use std::alloc::Global;
use std::test::Fail;

/// How many calls of a kind there were.
#[derive(Clone, Copy)]
pub struct Calls {
    pub kept: u32,
    pub refused: u32,
    pub undone: u32,
}

pub const NONE_YET: Calls = Calls {
    kept: 0,
    refused: 0,
    undone: 0,
};

/// Eighty drawn calls from one state.
pub fn follow(
    alloc: Global,
    graph: &PlanGraph,
    fleet: &Fleet,
    dice: &mut Dice,
    calls: &mut Calls,
) -> Result<(), Fail>
    requires { IsFleetState graph.now fleet.now }
{
    let mut live = undecided(alloc, graph, fleet)?;
    for _ in 0..80 {
        call(graph, fleet, &mut live, dice, calls);
        compare(alloc, graph, fleet, &live)?;
    }
    Ok(())
}

/// Decides a drawn pair, if it is open and has no side yet, or else undoes the last decision at times.
fn call(graph: &PlanGraph, fleet: &Fleet, live: &mut Live<'_>, dice: &mut Dice, calls: &mut Calls)
    requires state { IsFleetState graph.now fleet.now }
    requires graph { live.old.graph ≡ graph.now }
    requires fleet { live.old.state ≡ fleet.now }
    ensures graph { live.new.graph ≡ graph.now }
    ensures fleet { live.new.state ≡ fleet.now }
{
    let q = PairId(drawn_number(dice) % graph.pair_count().max(1));
    if q.0 < graph.pair_count() && is_open(graph, fleet, q) && live.side(q).is_none() {
        if live.decide(q, drawn_side(dice)) {
            calls.kept = calls.kept.saturating_add(1);
        } else {
            calls.refused = calls.refused.saturating_add(1);
        }
    } else if live.depth() > 0 && dice.roll() > 2 {
        live.undo();
        calls.undone = calls.undone.saturating_add(1);
    }
}

fn drawn_number(dice: &mut Dice) -> u32 {
    let high = dice.roll();
    let middle = dice.roll();
    let low = dice.roll();
    (high * 25 + middle * 5 + low) as u32
}

fn drawn_side(dice: &mut Dice) -> Side {
    if dice.roll() > 2 {
        Side::Lower
    } else {
        Side::Higher
    }
}
