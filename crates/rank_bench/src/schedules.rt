// Schedules of one view, again and again in the same ticks.
ghost use Rattle.std.specs.Prelude.{◌≡◌, IfSome};
ghost use Rattle.fleet_base.specs.Pairs.{pairs_of};
ghost use Rattle.fleet_base.specs.Order.{graph_of};
ghost use Rattle.fleet_base.specs.Rules.{IsFleetState};
ghost use Rattle.longest_path.specs.Ticks.{IsKeptFor};

use crate::ranks::plan_view;
use fleet_base::{Fleet, PairTable, SoundPlan};
use fleet_core::first_state;
use longest_path::{Ticks, earliest};
use plan_graph::{Oriented, PlanGraph};
use std::alloc::Global;

/// Makes the least schedule of the plan's first state and sides so many times; none if memory is wanting.
pub fn schedule_often(
    alloc: Global,
    plan: &SoundPlan,
    graph: &PlanGraph,
    table: &PairTable,
    times: u64,
) -> Option<()>
    requires graph { graph.now ≡ graph_of plan.now }
    requires pairs { table.now ≡ pairs_of plan.now }
{
    let view = plan_view(alloc, graph, table)?;
    let fleet = first_fleet(alloc, plan, graph, table)?;
    let mut ticks = Ticks::new(alloc, graph).ok()?;
    repeat(&view, &fleet, &mut ticks, times);
    Some(())
}

fn first_fleet(
    alloc: Global,
    plan: &SoundPlan,
    graph: &PlanGraph,
    table: &PairTable,
) -> Option<Fleet>
    requires graph { graph.now ≡ graph_of plan.now }
    requires pairs { table.now ≡ pairs_of plan.now }
    ensures { IfSome result (λ fleet. IsFleetState graph.now fleet) }
{
    match first_state(alloc, plan, table) {
        Ok(fleet) => Some(fleet),
        Err(_) => None,
    }
}

fn repeat(view: &Oriented<'_>, fleet: &Fleet, ticks: &mut Ticks, times: u64)
    requires state { IsFleetState view.now.graph fleet.now }
    requires room { IsKeptFor view.now.graph ticks.old }
{
    for _ in 0..times {
        let _found = earliest(view, fleet, ticks);
    }
}
