// Steps that reports make, and switches that are refused.
ghost use Rattle.std.specs.Prelude.{◌≡◌, ◌<◌, All, map, length, IfOk, IfErr};
ghost use Rattle.std.specs.List.Sorted.{IsStrictlyIncreasing};
ghost use Rattle.fleet_base.specs.Rules.{IsFleetState};
ghost use Rattle.fleet_core.specs.Step.{OnlyDelaysSwitch};
ghost use Rattle.plan_scenes.specs.Steps.{ComesTo, named};

use crate::events::Event;
use fleet_base::{Fleet, Items, PairId, PairList, Report, Visit, limits};
use fleet_core::{ChoiceWhy, Judged, PrepareError, apply, judge, prepare};
use plan_graph::PlanGraph;
use std::alloc::Global;
use std::test::Fail;

/// What a report comes to that is accepted.
#[derive(Debug, Drop)]
pub enum Outcome {
    /// It makes a step, which releases these visits.
    Released(Vec<Visit>),
    /// The pair is not to be switched, for this reason.
    Refused(PairId, ChoiceWhy),
}

/// Makes the step of an event. Its report must be accepted, and may name a pair of the plan if it is a delay. Where there is no
/// step the fleet stays as it is.
pub fn step(
    alloc: Global,
    graph: &PlanGraph,
    fleet: &mut Fleet,
    event: &Event,
) -> Result<Outcome, Fail>
    requires { IsFleetState graph.now fleet.old }
    ensures outcome { IfOk result (ComesTo graph.now fleet.old event.now.0 (named event.now.1) fleet.new) }
    ensures failed { IfErr result (λ reason. fleet.new ≡ fleet.old) }
    ensures rules { IsFleetState graph.now fleet.new }
{
    let (report, pair) = event;
    if judge(graph, fleet, report) != Judged::Accept || fleet.count() >= limits::REPORTS {
        return Err(Fail::from("an accepted report"));
    }
    let switched = switched_by(alloc, graph, report, *pair)?;
    match prepare(alloc, graph, fleet, report, &switched) {
        Ok(entry) => {
            let visits = Vec::from_slice(alloc, entry.releases.as_slice())?;
            apply(fleet, &entry);
            Ok(Outcome::Released(visits))
        }
        Err(PrepareError::ChoiceRefused { pair, why }) => Ok(Outcome::Refused(pair, why)),
        Err(PrepareError::Memory) => Err(Fail::from("memory")),
    }
}

/// The list of the pair that is named, if one is.
fn switched_by(
    alloc: Global,
    graph: &PlanGraph,
    report: &Report,
    pair: Option<PairId>,
) -> Result<PairList, Fail>
    ensures named { IfOk result (λ switched. switched ≡ named pair) }
    ensures ascending { IfOk result (λ switched. IsStrictlyIncreasing (map (λ q. q.0) switched)) }
    ensures there { IfOk result (λ switched. All (λ q. q.0 < length graph.now.pairs) switched) }
    ensures may { IfOk result (OnlyDelaysSwitch report.now) }
{
    match (report, pair) {
        (_, None) => Ok(Items::new(alloc)),
        (Report::Delay { .. }, Some(q)) if q.0 < graph.pair_count() => one_pair(alloc, q),
        _ => Err(Fail::from("a delay, and a pair of the plan")),
    }
}

fn one_pair(alloc: Global, q: PairId) -> Result<PairList, Fail>
    ensures { IfOk result (λ switched. switched ≡ named (Some q)) }
{
    let mut list = Items::new(alloc);
    list.push(q)?;
    Ok(list)
}
