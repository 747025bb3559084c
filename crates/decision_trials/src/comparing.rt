// A schedule that follows decisions, beside the one from scratch.
ghost use Rattle.std.specs.Prelude.{◌≡◌, IfOk};
ghost use Rattle.fleet_base.specs.Rules.{IsFleetState};
ghost use Rattle.longest_path.specs.Ticks.{IsKeptFor};

use fleet_base::{Fleet, PairId, Visit};
use longest_path::{Live, Ticks, earliest};
use plan_graph::{Oriented, PlanGraph};
use std::alloc::Global;
use std::test::Fail;

/// A schedule of the state in which nothing is decided yet.
pub fn undecided<'g>(alloc: Global, graph: &'g PlanGraph, fleet: &Fleet) -> Result<Live<'g>, Fail>
    requires { IsFleetState graph.now fleet.now }
    ensures graph { IfOk result (λ live. live.graph ≡ graph.now) }
    ensures fleet { IfOk result (λ live. live.state ≡ fleet.now) }
{
    Ok(Live::new(alloc, graph, fleet)?)
}

/// Compares the ticks and the sum with those from scratch.
pub fn compare(alloc: Global, graph: &PlanGraph, fleet: &Fleet, live: &Live<'_>) -> Result<(), Fail>
    requires state { IsFleetState graph.now fleet.now }
    requires graph { live.now.graph ≡ graph.now }
{
    let view = decided_view(alloc, graph, live)?;
    let mut ticks = Ticks::new(alloc, graph)?;
    if schedules(&view, fleet, &mut ticks)
        && ticks.end_sum() == live.end_sum()
        && same(graph, &ticks, live)
    {
        Ok(())
    } else {
        Err(Fail::from("the schedule from scratch"))
    }
}

/// The view with the sides of the closed pairs and of those that are decided.
fn decided_view<'g>(
    alloc: Global,
    graph: &'g PlanGraph,
    live: &Live<'_>,
) -> Result<Oriented<'g>, Fail>
    requires { live.now.graph ≡ graph.now }
    ensures { IfOk result (λ view. view.graph ≡ graph.now) }
{
    let mut view = graph.orient(alloc)?;
    for number in 0..graph.pair_count() {
        view.set(PairId(number), live.side(PairId(number)));
    }
    Ok(view)
}

/// Whether the view has a schedule, which is then in the ticks.
fn schedules(view: &Oriented<'_>, fleet: &Fleet, ticks: &mut Ticks) -> bool
    requires state { IsFleetState view.now.graph fleet.now }
    requires room { IsKeptFor view.now.graph ticks.old }
    ensures { IsKeptFor view.now.graph ticks.new }
{
    earliest(view, fleet, ticks).is_ok()
}

/// Whether each visit has the same tick in both.
fn same(graph: &PlanGraph, ticks: &Ticks, live: &Live<'_>) -> bool
    requires ticks { IsKeptFor graph.now ticks.now }
    requires graph { live.now.graph ≡ graph.now }
{
    for robot in 0..graph.robots() {
        for index in 0..=graph.last(robot) {
            let visit = Visit { robot, index };
            if ticks.at(visit) != live.at(visit) {
                return false;
            }
        }
    }
    true
}
