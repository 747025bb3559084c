// Plans that are made, and their first states with a delay.
ghost use Rattle.std.specs.Prelude.{◌≡◌, ◌<◌, ◌^◌, IfSome};
ghost use Rattle.fleet_base.specs.Pairs.{pairs_of};
ghost use Rattle.fleet_base.specs.Order.{graph_of};
ghost use Rattle.fleet_base.specs.Rules.{IsFleetState};
ghost use Rattle.fleet_core.specs.declared.judging.Judged.TheVariants.{Accept};
ghost use Rattle.fleet_core.specs.Judgement.{judgement_of};

use fleet_base::{Fleet, PairTable, Report, SoundPlan};
use fleet_core::{Judged, first_state, heard, judge};
use fleet_gen::gen_fleet;
use plan_check::check;
use plan_graph::PlanGraph;
use std::alloc::Global;
use switch_pairs::pairs;

/// The plan of the fleet of a seed; none if memory is wanting.
pub fn generated(alloc: Global, seed: u64) -> Option<SoundPlan> {
    let (grid, raw) = gen_fleet(alloc, seed).ok()?;
    check(alloc, &grid, &raw).ok()
}

/// The graph of a plan, and its first state with a delay of a robot's first move; none if there is no such robot or delay, or
/// memory is wanting.
pub fn delayed(
    alloc: Global,
    plan: &SoundPlan,
    robot: u64,
    extra: u64,
) -> Option<(PlanGraph, Fleet)>
    ensures { IfSome result (λ made. IsFleetState made.0 made.1) }
{
    let table = pairs(alloc, plan).ok()?;
    let graph = PlanGraph::new(alloc, plan, &table).ok()?;
    let first = first_fleet(alloc, plan, &graph, &table)?;
    let late = Report::Delay {
        robot,
        index: 1,
        extra,
        tick: 0,
    };
    let fleet = with_delay(alloc, &graph, &first, late)?;
    Some((graph, fleet))
}

fn first_fleet(
    alloc: Global,
    plan: &SoundPlan,
    graph: &PlanGraph,
    table: &PairTable,
) -> Option<Fleet>
    requires graph { graph.now ≡ graph_of plan.now }
    requires pairs { table.now ≡ pairs_of plan.now }
    ensures { IfSome result (λ fleet. IsFleetState graph.now fleet) }
{
    match first_state(alloc, plan, table) {
        Ok(fleet) => Some(fleet),
        Err(_) => None,
    }
}

fn with_delay(alloc: Global, graph: &PlanGraph, fleet: &Fleet, late: Report) -> Option<Fleet>
    requires { IsFleetState graph.now fleet.now }
    ensures { IfSome result (IsFleetState graph.now) }
{
    match judge(graph, fleet, &late) {
        Judged::Accept if fleet.count() < 1 << 62 => heard_now(alloc, graph, fleet, &late),
        _ => None,
    }
}

fn heard_now(alloc: Global, graph: &PlanGraph, fleet: &Fleet, late: &Report) -> Option<Fleet>
    requires state { IsFleetState graph.now fleet.now }
    requires accepted { judgement_of fleet.now late.now ≡ Accept }
    requires count { fleet.now.count < 2 ^ 62 }
    ensures { IfSome result (IsFleetState graph.now) }
{
    let Report::Delay { .. } = late else {
        return None;
    };
    match heard(alloc, fleet, late) {
        Ok(delayed) => Some(delayed),
        Err(_) => None,
    }
}
