// The plan's first state.
ghost use Rattle.std.specs.Prelude.{IfSome};
ghost use Rattle.fleet_base.specs.Plan.{HasRobots};
ghost use Rattle.fleet_base.specs.Rules.{IsFleetState};

use crate::crossings::Crossings;
use fleet_base::{Fleet, RawPlan, SoundPlan};
use fleet_core::first_state;
use map_text::read_map;
use plan_check::check;
use plan_graph::PlanGraph;
use plan_text::read_plan;
use std::alloc::Global;
use switch_pairs::pairs;

/// The graph of the plan and its first state; none where there is no such plan, or memory is wanting.
pub fn first(alloc: Global, crossings: Crossings) -> Option<(PlanGraph, Fleet)>
    ensures { IfSome result (λ made. IsFleetState made.0 made.1) }
{
    let plan = sound_plan(alloc, crossings)?;
    let Ok(table) = pairs(alloc, &plan) else {
        return None;
    };
    let Ok(graph) = PlanGraph::new(alloc, &plan, &table) else {
        return None;
    };
    match first_state(alloc, &plan, &table) {
        Ok(fleet) => Some((graph, fleet)),
        Err(_) => None,
    }
}

fn sound_plan(alloc: Global, crossings: Crossings) -> Option<SoundPlan> {
    let map = crossings.map_text(alloc).ok()?;
    let text = crossings.plan_text(alloc).ok()?;
    if map.len() > 1 << 25 {
        return None;
    }
    let grid = read_map(alloc, map.as_bytes()).ok()?;
    let raw = raw_of(alloc, text.as_bytes())?;
    check(alloc, &grid, &raw).ok()
}

fn raw_of(alloc: Global, text: &[u8]) -> Option<RawPlan>
    ensures { IfSome result HasRobots }
{
    if text.len() > 1 << 25 {
        return None;
    }
    match read_plan(alloc, text) {
        Ok(raw) => Some(raw),
        Err(_) => None,
    }
}
