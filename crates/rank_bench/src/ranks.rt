// Rankings of one view, again and again in one room.
ghost use Rattle.std.specs.Prelude.{◌≡◌, IfSome};
ghost use Rattle.fleet_base.specs.Plan.{HasRobots};
ghost use Rattle.plan_graph.specs.Views.{IsRankingFor};

use crate::convoy;
use crate::schedules::schedule_often;
use fleet_base::{PairId, PairTable, RawPlan, SoundPlan};
use map_text::read_map;
use plan_check::check;
use plan_graph::{Oriented, PlanGraph, RankRoom, rank};
use plan_text::read_plan;
use std::alloc::Global;
use switch_pairs::pairs;

/// Ranks the sides of the robots' plan so many times, and then makes its schedule so many times; none if there is no such
/// plan, or memory is wanting.
pub fn ranked(alloc: Global, robots: u64, steps: u64, ranks: u64, schedules: u64) -> Option<()> {
    let plan = sound_plan(alloc, robots, steps)?;
    let table = pairs(alloc, &plan).ok()?;
    let graph = PlanGraph::new(alloc, &plan, &table).ok()?;
    rank_often(alloc, &graph, &table, ranks)?;
    schedule_often(alloc, &plan, &graph, &table, schedules)
}

fn sound_plan(alloc: Global, robots: u64, steps: u64) -> Option<SoundPlan> {
    let map = convoy::map_text(alloc).ok()?;
    let text = convoy::plan_text(alloc, robots, steps).ok()?;
    if map.len() > 1 << 25 || text.len() > 1 << 25 {
        return None;
    }
    let grid = read_map(alloc, &map).ok()?;
    let raw = raw_of(alloc, text.as_bytes())?;
    check(alloc, &grid, &raw).ok()
}

fn raw_of(alloc: Global, text: &[u8]) -> Option<RawPlan>
    ensures { IfSome result HasRobots }
{
    if text.len() > 1 << 25 {
        return None;
    }
    match read_plan(alloc, text) {
        Ok(raw) => Some(raw),
        Err(_) => None,
    }
}

fn rank_often(alloc: Global, graph: &PlanGraph, table: &PairTable, times: u64) -> Option<()> {
    let view = plan_view(alloc, graph, table)?;
    let mut room = RankRoom::new(alloc, graph).ok()?;
    repeat(&view, &mut room, times);
    Some(())
}

/// The view that gives each pair the plan's side.
pub fn plan_view<'g>(alloc: Global, graph: &'g PlanGraph, table: &PairTable) -> Option<Oriented<'g>>
    ensures { IfSome result (λ view. view.graph ≡ graph.now) }
{
    let mut view = graph.orient(alloc).ok()?;
    for q in 0..table.len() {
        if q < graph.pair_count() {
            view.set(PairId(q), Some(table.pair(PairId(q)).first));
        }
    }
    Some(view)
}

fn repeat(view: &Oriented<'_>, room: &mut RankRoom, times: u64)
    requires { IsRankingFor view.now.graph room.old }
{
    for _ in 0..times {
        rank(view, room);
    }
}
