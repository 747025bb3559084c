// Schedules that follow drawn decisions on drawn plans.
ghost use Rattle.std.specs.Prelude.{IfOk};
ghost use Rattle.fleet_base.specs.Rules.{IsFleetState};

use crate::following::{Calls, NONE_YET, follow};
use drawn_plays::{drawn_plan, play};
use fleet_base::Fleet;
use plan_graph::PlanGraph;
use plan_scenes::Dice;
use std::alloc::Global;
use std::test::Fail;

/// A drawn plan, at its start or after drawn reports.
fn drawn_state(alloc: Global, dice: &mut Dice) -> Result<(PlanGraph, Fleet), Fail>
    ensures { IfOk result (λ made. IsFleetState made.0 made.1) }
{
    let (graph, mut fleet) = drawn_plan(alloc, dice, 20)?;
    if dice.roll() > 1 {
        play(alloc, &graph, &mut fleet, dice)?;
    }
    Ok((graph, fleet))
}

fn follow_drawn(alloc: Global, dice: &mut Dice, calls: &mut Calls) -> Result<(), Fail> {
    let (graph, fleet) = drawn_state(alloc, dice)?;
    follow(alloc, &graph, &fleet, dice, calls)
}

#[test]
fn schedules_follow_drawn_decisions(rt: HostRuntime) -> Result<(), Fail> {
    let mut dice = Dice { state: 11 };
    let mut calls = NONE_YET;
    for _ in 0..20 {
        follow_drawn(rt.alloc(), &mut dice, &mut calls)?;
    }
    assert!(rt; calls.kept > 20);
    assert!(rt; calls.refused > 5);
    assert!(rt; calls.undone > 5);
    Ok(())
}
