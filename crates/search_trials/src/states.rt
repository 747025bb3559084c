// States in which a delay was heard, and nothing was switched or released for it yet.
ghost use Rattle.std.specs.Prelude.{◌≡◌, ◌<◌, ◌^◌, IfOk};
ghost use Rattle.fleet_base.specs.Rules.{IsFleetState};
ghost use Rattle.fleet_core.specs.declared.judging.Judged.TheVariants.{Accept};
ghost use Rattle.fleet_core.specs.Judgement.{judgement_of};

use fleet_base::{Fleet, Report};
use fleet_core::{Judged, heard, judge};
use plan_graph::PlanGraph;
use plan_scenes::{Event, Texts, after};
use std::alloc::Global;
use std::test::Fail;

/// The graph of a plan, and its state after some events and with a delay of a robot's move.
pub fn delayed(
    alloc: Global,
    texts: Texts<'_>,
    events: &[Event],
    late: Report,
) -> Result<(PlanGraph, Fleet), Fail>
    ensures { IfOk result (λ made. IsFleetState made.0 made.1) }
{
    let (graph, fleet) = after(alloc, texts, 1, events)?;
    let fleet = with_delay(alloc, &graph, &fleet, late)?;
    Ok((graph, fleet))
}

/// The state with a delay applied, which must be accepted.
pub fn with_delay(
    alloc: Global,
    graph: &PlanGraph,
    fleet: &Fleet,
    late: Report,
) -> Result<Fleet, Fail>
    requires { IsFleetState graph.now fleet.now }
    ensures { IfOk result (IsFleetState graph.now) }
{
    match judge(graph, fleet, &late) {
        Judged::Accept if fleet.count() < 1 << 62 => heard_now(alloc, graph, fleet, &late),
        _ => Err(Fail::from("an accepted delay")),
    }
}

fn heard_now(alloc: Global, graph: &PlanGraph, fleet: &Fleet, late: &Report) -> Result<Fleet, Fail>
    requires state { IsFleetState graph.now fleet.now }
    requires accepted { judgement_of fleet.now late.now ≡ Accept }
    requires count { fleet.now.count < 2 ^ 62 }
    ensures { IfOk result (IsFleetState graph.now) }
{
    let Report::Delay { .. } = late else {
        return Err(Fail::from("a delay"));
    };
    match heard(alloc, fleet, late) {
        Ok(delayed) => Ok(delayed),
        Err(_) => Err(Fail::from("memory")),
    }
}
