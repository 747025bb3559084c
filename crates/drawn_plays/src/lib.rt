//! What trials of drawn plans share: the graphs and first states of drawn walks, and how robots go on that are drawn too.
#![tactic(auto)]

ghost use Rattle.std.specs.Prelude.{IfOk};
ghost use Rattle.fleet_base.specs.Release.{IsFirstStateAhead};
ghost use Rattle.fleet_base.specs.Rules.{IsFleetState};

use fleet_base::Fleet;
use fleet_core::{Judged, judge};
use plan_graph::PlanGraph;
use plan_scenes::{Dice, Event, SQUARE, arrive, delay, drawn_walks, first, step, text_of};
use std::alloc::Global;
use std::test::Fail;

/// A drawn plan of so many ticks: its graph, and its first state.
pub fn drawn_plan(alloc: Global, dice: &mut Dice, ticks: u32) -> Result<(PlanGraph, Fleet), Fail>
    ensures first { IfOk result (λ made. IsFirstStateAhead made.0 1 made.1) }
    ensures rules { IfOk result (λ made. IsFleetState made.0 made.1) }
{
    let walks = drawn_walks(alloc, dice, ticks)?;
    let text = text_of(alloc, &walks)?;
    first(alloc, (SQUARE, text.as_bytes()))
}

/// Some robots arrive, and some are late.
pub fn play(
    alloc: Global,
    graph: &PlanGraph,
    fleet: &mut Fleet,
    dice: &mut Dice,
) -> Result<(), Fail>
    requires { IsFleetState graph.now fleet.old }
    ensures { IsFleetState graph.now fleet.new }
{
    for _ in 0..24 {
        let event = drawn_event(fleet, dice);
        if judge(graph, fleet, &event.0) == Judged::Accept {
            let _made = step(alloc, graph, fleet, &event)?;
        }
    }
    Ok(())
}

/// A robot arrives at the next visit that it may enter, or the move there is late.
fn drawn_event(fleet: &Fleet, dice: &mut Dice) -> Event {
    let robot = dice.roll().min(3) as u32;
    let tick = fleet.now().saturating_add(dice.roll());
    if robot >= fleet.robots() {
        return arrive(u64::from(robot), 0, tick);
    }
    let next = fleet.arrived(robot).saturating_add(1);
    let (number, index) = (u64::from(robot), u64::from(next));
    if next <= fleet.released(robot) && dice.roll() > 0 {
        arrive(number, index, tick)
    } else {
        delay(number, index, dice.roll(), tick)
    }
}
