// Least schedules of drawn plans, after drawn events and under drawn sides, beside those of rounds.
ghost use Rattle.std.specs.Prelude.{◌≡◌, IfOk};
ghost use Rattle.fleet_base.specs.Rules.{IsFleetState};
ghost use Rattle.longest_path.specs.Ticks.{IsKeptFor};

use crate::rounds::{read, slow_ticks};
use crate::views::schedules;
use drawn_plays::{drawn_plan, play};
use fleet_base::{Fleet, PairId, Side, Visit};
use longest_path::Ticks;
use plan_graph::{Oriented, PlanGraph, is_open};
use plan_scenes::Dice;
use std::alloc::Global;
use std::test::Fail;

/// A view that gives some pairs the fleet's sides, and turns one if it is open.
fn drawn_view<'g>(
    alloc: Global,
    graph: &'g PlanGraph,
    fleet: &Fleet,
    dice: &mut Dice,
) -> Result<Oriented<'g>, Fail>
    requires { IsFleetState graph.now fleet.now }
    ensures { IfOk result (λ view. view.graph ≡ graph.now) }
{
    let turned = dice.roll().wrapping_mul(5).wrapping_add(dice.roll());
    let mut view = graph.orient(alloc)?;
    for number in 0..graph.pair_count() {
        let q = PairId(number);
        let turns = u64::from(number) == turned && is_open(graph, fleet, q);
        view.set(q, drawn_side(fleet.side(q), turns, dice));
    }
    Ok(view)
}

fn drawn_side(side: Side, turns: bool, dice: &mut Dice) -> Option<Side> {
    match (turns, side) {
        (true, Side::Lower) => Some(Side::Higher),
        (true, Side::Higher) => Some(Side::Lower),
        (false, _) if dice.roll() > 1 => Some(side),
        (false, _) => None,
    }
}

/// Whether the schedule of a drawn view is that of rounds, and how it ends.
fn agrees(
    alloc: Global,
    graph: &PlanGraph,
    fleet: &Fleet,
    dice: &mut Dice,
) -> Result<Option<bool>, Fail>
    requires { IsFleetState graph.now fleet.now }
{
    let view = drawn_view(alloc, graph, fleet, dice)?;
    let mut ticks = Ticks::new(alloc, graph)?;
    let slow = slow_ticks(alloc, &view, fleet)?;
    match (schedules(&view, fleet, &mut ticks), slow) {
        (true, Some(slow)) if same(graph, &ticks, &slow) => Ok(Some(true)),
        (false, None) => Ok(Some(false)),
        _ => Ok(None),
    }
}

/// Whether each visit has the same tick in both.
fn same(graph: &PlanGraph, ticks: &Ticks, slow: &[Vec<u64>]) -> bool
    requires { IsKeptFor graph.now ticks.now }
{
    for robot in 0..graph.robots() {
        for index in 0..=graph.last(robot) {
            let visit = Visit { robot, index };
            if ticks.at(visit) != read(slow, visit) {
                return false;
            }
        }
    }
    true
}

/// How many schedules of one plan there are, and how many cycles.
fn counts(alloc: Global, dice: &mut Dice) -> Result<(u32, u32), Fail> {
    let (graph, mut fleet) = drawn_plan(alloc, dice, 16)?;
    play(alloc, &graph, &mut fleet, dice)?;
    match agrees(alloc, &graph, &fleet, dice)? {
        Some(true) => Ok((1, 0)),
        Some(false) => Ok((0, 1)),
        None => Err(Fail::from("the schedule of rounds")),
    }
}

#[test]
fn schedules_of_drawn_plans_are_those_of_rounds(rt: HostRuntime) -> Result<(), Fail> {
    let mut dice = Dice { state: 3 };
    let mut schedules: u32 = 0;
    let mut cycles: u32 = 0;
    for _ in 0..40 {
        let found = counts(rt.alloc(), &mut dice)?;
        schedules = schedules.saturating_add(found.0);
        cycles = cycles.saturating_add(found.1);
    }
    assert!(rt; schedules > 0);
    assert!(rt; cycles > 0);
    Ok(())
}
