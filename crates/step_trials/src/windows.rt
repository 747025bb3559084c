// Plans that are played to their end where a robot may hold several releases that it has not reported.
ghost use Rattle.fleet_base.specs.State.{IsWindow};
ghost use Rattle.fleet_base.specs.Rules.{IsFleetState};

use fleet_base::Fleet;
use plan_graph::PlanGraph;
use plan_scenes::{CORRIDOR, Dice, SQUARE, Texts, arrive, drawn_walks, first_ahead, step, text_of};
use std::alloc::Global;
use std::test::Fail;

/// Lets a robot arrive at its next visit, the first from a drawn one on to which that visit is released. Says whether one did.
fn go_on(alloc: Global, graph: &PlanGraph, fleet: &mut Fleet, dice: &mut Dice) -> Result<bool, Fail>
    requires { IsFleetState graph.now fleet.old }
    ensures { IsFleetState graph.now fleet.new }
{
    let from = dice.roll() as u32;
    let tick = fleet.now().saturating_add(dice.roll());
    for turn in 0..fleet.robots() {
        let robot = from.wrapping_add(turn) % fleet.robots().max(1);
        let next = fleet.arrived(robot).saturating_add(1);
        if next <= fleet.released(robot) {
            let event = arrive(u64::from(robot), u64::from(next), tick);
            let _made = step(alloc, graph, fleet, &event)?;
            return Ok(true);
        }
    }
    Ok(false)
}

/// Whether no robot has been told more than so many visits past the last that it reported.
fn is_within(fleet: &Fleet, window: u32) -> bool {
    for robot in 0..fleet.robots() {
        if fleet.released(robot) > fleet.arrived(robot).saturating_add(window) {
            return false;
        }
    }
    true
}

/// Whether every robot has arrived at its last visit.
fn has_ended(fleet: &Fleet) -> bool {
    for robot in 0..fleet.robots() {
        if fleet.arrived(robot) != fleet.last(robot) {
            return false;
        }
    }
    true
}

/// Plays a plan to its end by arrivals in a drawn order.
fn play_out(alloc: Global, texts: Texts<'_>, window: u32, dice: &mut Dice) -> Result<(), Fail>
    requires { IsWindow window }
{
    let (graph, mut fleet) = first_ahead(alloc, texts, window)?;
    play_on(alloc, &graph, &mut fleet, window, dice)?;
    if has_ended(&fleet) {
        Ok(())
    } else {
        Err(Fail::from("every robot at its last visit"))
    }
}

/// Plays on until nothing more is taken.
fn play_on(
    alloc: Global,
    graph: &PlanGraph,
    fleet: &mut Fleet,
    window: u32,
    dice: &mut Dice,
) -> Result<(), Fail>
    requires { IsFleetState graph.now fleet.old }
{
    for _ in 0..graph.visit_count() {
        if !is_within(fleet, window) {
            return Err(Fail::from("no more releases than the window"));
        }
        if !go_on(alloc, graph, fleet, dice)? {
            break;
        }
    }
    Ok(())
}

#[test]
fn the_corridor_is_played_out_in_each_window(rt: HostRuntime) -> Result<(), Fail> {
    let mut dice = Dice { state: 7 };
    for window in [1, 3, 8] {
        play_out(rt.alloc(), CORRIDOR, window, &mut dice)?;
    }
    Ok(())
}

#[test]
fn drawn_plans_are_played_out_in_each_window(rt: HostRuntime) -> Result<(), Fail> {
    let mut dice = Dice { state: 9 };
    for _ in 0..10 {
        let walks = drawn_walks(rt.alloc(), &mut dice, 16)?;
        let text = text_of(rt.alloc(), &walks)?;
        for window in [1, 3, 8] {
            play_out(rt.alloc(), (SQUARE, text.as_bytes()), window, &mut dice)?;
        }
    }
    Ok(())
}
