// States of plans, and their views.
ghost use Rattle.std.specs.Prelude.{◌≡◌, IfOk};
ghost use Rattle.fleet_base.specs.State.{IsFleetOf, IsWindow};
ghost use Rattle.fleet_base.specs.Release.{IsFirstStateAhead};
ghost use Rattle.fleet_base.specs.Rules.{IsFleetState};
ghost use Rattle.release_rule.specs.Releasing.{HasSidesOf};
ghost use Rattle.plan_scenes.specs.Plans.{IsGraphOf};

use crate::events::Event;
use crate::plans::{Texts, planned};
use crate::steps::{Outcome, step};
use fleet_base::{Fleet, PairId};
use fleet_core::first_state_ahead;
use plan_graph::{Oriented, PlanGraph};
use std::alloc::Global;
use std::test::Fail;

/// The graph of a plan, and its first state.
pub fn first(alloc: Global, texts: Texts<'_>) -> Result<(PlanGraph, Fleet), Fail>
    ensures graph { IfOk result (λ made. IsGraphOf texts.entry.0.now texts.entry.1.now made.0) }
    ensures first { IfOk result (λ made. IsFirstStateAhead made.0 1 made.1) }
    ensures rules { IfOk result (λ made. IsFleetState made.0 made.1) }
{
    first_ahead(alloc, texts, 1)
}

/// The same where a robot may hold so many releases that it has not reported.
pub fn first_ahead(alloc: Global, texts: Texts<'_>, window: u32) -> Result<(PlanGraph, Fleet), Fail>
    requires { IsWindow window }
    ensures graph { IfOk result (λ made. IsGraphOf texts.entry.0.now texts.entry.1.now made.0) }
    ensures first { IfOk result (λ made. IsFirstStateAhead made.0 window made.1) }
    ensures rules { IfOk result (λ made. IsFleetState made.0 made.1) }
{
    let (plan, table) = planned(alloc, texts)?;
    let graph = PlanGraph::new(alloc, &plan, &table)?;
    let fleet = first_state_ahead(alloc, &plan, &table, window)?;
    Ok((graph, fleet))
}

/// The graph of a plan, and its state after these events, each of which must make a step.
pub fn after(
    alloc: Global,
    texts: Texts<'_>,
    window: u32,
    events: &[Event],
) -> Result<(PlanGraph, Fleet), Fail>
    requires { IsWindow window }
    ensures graph { IfOk result (λ made. IsGraphOf texts.entry.0.now texts.entry.1.now made.0) }
    ensures rules { IfOk result (λ made. IsFleetState made.0 made.1) }
{
    let (graph, mut fleet) = first_ahead(alloc, texts, window)?;
    play(alloc, &graph, &mut fleet, events)?;
    Ok((graph, fleet))
}

fn play(alloc: Global, graph: &PlanGraph, fleet: &mut Fleet, events: &[Event]) -> Result<(), Fail>
    requires { IsFleetState graph.now fleet.old }
    ensures { IsFleetState graph.now fleet.new }
{
    for event in events {
        match step(alloc, graph, fleet, event)? {
            Outcome::Released(_) => {}
            Outcome::Refused(..) => return Err(Fail::from("a step")),
        }
    }
    Ok(())
}

/// The view that gives each pair the side that it has in the fleet.
pub fn view_of<'g>(alloc: Global, graph: &'g PlanGraph, fleet: &Fleet) -> Result<Oriented<'g>, Fail>
    requires { IsFleetOf graph.now fleet.now }
    ensures graph { IfOk result (λ view. view.graph ≡ graph.now) }
    ensures sides { IfOk result (λ view. HasSidesOf view fleet.now) }
{
    let mut view = graph.orient(alloc)?;
    for number in 0..graph.pair_count() {
        let q = PairId(number);
        view.set(q, Some(fleet.side(q)));
    }
    Ok(view)
}
