// Searches of one state, again and again in the same room, and schedules of it.
ghost use Rattle.std.specs.Prelude.{◌≡◌, IfSome};
ghost use Rattle.fleet_base.specs.Rules.{IsFleetState};
ghost use Rattle.longest_path.specs.Ticks.{IsKeptFor};
ghost use Rattle.search_nodes.specs.Rooms.{IsRoomFor};

use crate::fleets::{delayed, generated};
use crate::streams::crossing;
use bound_search::{Found, Outcome as Known, Room, search};
use cert_tree::{Cert, Node};
use fleet_base::{Fleet, PairId, SoundPlan};
use longest_path::{Ticks, earliest};
use plan_graph::{Oriented, PlanGraph};
use std::alloc::Global;

/// What is asked: a plan, a delay of a robot's first move, a budget, and how often.
#[derive(Clone, Copy)]
pub struct Asked {
    pub made: Made,
    pub robot: u64,
    pub extra: u64,
    pub budget: u64,
    pub searches: u64,
    pub schedules: u64,
}

/// Which plan is made: that of the fleet of a seed, or of two streams of robots that cross.
#[derive(Clone, Copy)]
pub enum Made {
    Seed(u64),
    Streams { robots: u64, steps: u64 },
}

/// What the last search found: how large the plan is, how often a decision was asked for, how many branches the certificate has,
/// and what the order costs before and after it.
#[derive(Clone, Copy)]
pub struct Outcome {
    pub pairs: u32,
    pub visits: u32,
    pub asked: u64,
    pub branches: u64,
    pub kept: u64,
    pub cost: u64,
}

/// Makes the schedule of the delayed state so many times and searches so many times; none if there is no such delay, or memory
/// is wanting.
pub fn searched(alloc: Global, asked: Asked) -> Option<Outcome> {
    let plan = plan_of(alloc, asked.made)?;
    let (graph, fleet) = delayed(alloc, &plan, asked.robot, asked.extra)?;
    let kept = scheduled(alloc, &graph, &fleet, asked.schedules)?;
    let mut room = Room::new(alloc, &graph).ok()?;
    let mut outcome = Outcome {
        pairs: graph.pair_count(),
        visits: graph.visit_count(),
        asked: 0,
        branches: 0,
        kept,
        cost: kept,
    };
    search_often(alloc, &graph, &fleet, asked, &mut room, &mut outcome)?;
    Some(outcome)
}

fn plan_of(alloc: Global, made: Made) -> Option<SoundPlan> {
    match made {
        Made::Seed(seed) => generated(alloc, seed),
        Made::Streams { robots, steps } => crossing(alloc, robots, steps),
    }
}

fn search_often(
    alloc: Global,
    graph: &PlanGraph,
    fleet: &Fleet,
    asked: Asked,
    room: &mut Room,
    outcome: &mut Outcome,
) -> Option<()>
    requires state { IsFleetState graph.now fleet.now }
    requires room { IsRoomFor graph.now room.old }
{
    for _ in 0..asked.searches {
        search_once(alloc, graph, fleet, asked.budget, room, outcome)?;
    }
    Some(())
}

fn search_once(
    alloc: Global,
    graph: &PlanGraph,
    fleet: &Fleet,
    budget: u64,
    room: &mut Room,
    outcome: &mut Outcome,
) -> Option<()>
    requires state { IsFleetState graph.now fleet.now }
    requires room { IsRoomFor graph.now room.old }
    ensures { IsRoomFor graph.now room.new }
{
    match search(alloc, graph, fleet, budget, room) {
        Ok(found) => {
            outcome.asked = found.live.asked();
            outcome.branches = branches_in(&found);
            outcome.cost = found.cost;
            Some(())
        }
        Err(_) => None,
    }
}

/// Makes the least schedule of the state's sides so many times, and says what it costs.
fn scheduled(alloc: Global, graph: &PlanGraph, fleet: &Fleet, times: u64) -> Option<u64>
    requires { IsFleetState graph.now fleet.now }
{
    let view = view_of(alloc, graph, fleet)?;
    let mut ticks = Ticks::new(alloc, graph).ok()?;
    schedule_often(&view, fleet, &mut ticks, times);
    Some(ticks.end_sum())
}

fn schedule_often(view: &Oriented<'_>, fleet: &Fleet, ticks: &mut Ticks, times: u64)
    requires state { IsFleetState view.now.graph fleet.now }
    requires room { IsKeptFor view.now.graph ticks.old }
{
    for _ in 0..times {
        let _found = earliest(view, fleet, ticks);
    }
}

/// The view that gives each pair the state's side.
fn view_of<'g>(alloc: Global, graph: &'g PlanGraph, fleet: &Fleet) -> Option<Oriented<'g>>
    requires { IsFleetState graph.now fleet.now }
    ensures { IfSome result (λ view. view.graph ≡ graph.now) }
{
    let mut view = graph.orient(alloc).ok()?;
    for number in 0..graph.pair_count() {
        view.set(PairId(number), Some(fleet.side(PairId(number))));
    }
    Some(view)
}

/// How many nodes of the certificate are branches.
fn branches_in(found: &Found<'_>) -> u64 {
    nodes_of(&found.outcome)
        .as_slice()
        .iter()
        .filter(|node| matches!(node, Node::Branch { .. }))
        .count() as u64
}

fn nodes_of(outcome: &Known) -> &Cert {
    match outcome {
        Known::Optimal { cert } => cert,
        Known::Spent { cert, .. } => cert,
    }
}
