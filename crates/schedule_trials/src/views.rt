// Views of a fleet's sides, and whether they have schedules.
ghost use Rattle.std.specs.Prelude.{◌≡◌, ◌<◌, length, false, IfOk};
ghost use Rattle.fleet_base.specs.Open.{is_open};
ghost use Rattle.fleet_base.specs.State.{order_at};
ghost use Rattle.fleet_base.specs.Rules.{IsFleetState};
ghost use Rattle.plan_graph.specs.Views.{order_in};
ghost use Rattle.longest_path.specs.Ticks.{IsKeptFor};
ghost use Rattle.longest_path.specs.Closed.{AgreesOnClosed};

use fleet_base::{Fleet, PairId, Side};
use longest_path::{Ticks, earliest};
use plan_graph::{Oriented, PlanGraph, is_open};
use std::alloc::Global;
use std::test::Fail;

/// A view that gives each closed pair the fleet's side, and these open pairs these sides.
pub fn view_with<'g>(
    alloc: Global,
    graph: &'g PlanGraph,
    fleet: &Fleet,
    sides: &[(u32, Side)],
) -> Result<Oriented<'g>, Fail>
    requires { IsFleetState graph.now fleet.now }
    ensures graph { IfOk result (λ view. view.graph ≡ graph.now) }
    ensures closed { IfOk result (λ view. AgreesOnClosed graph.now fleet.now (order_in view)) }
{
    let mut view = graph.orient(alloc)?;
    for number in 0..graph.pair_count() {
        let q = PairId(number);
        let side = side_for(graph, fleet, sides, q);
        view.set(q, side);
    }
    Ok(view)
}

/// The fleet's side of a closed pair; that of an open one in a list, if it has one.
fn side_for(graph: &PlanGraph, fleet: &Fleet, sides: &[(u32, Side)], q: PairId) -> Option<Side>
    requires state { IsFleetState graph.now fleet.now }
    requires there { q.0 < length graph.now.pairs }
    ensures { is_open graph.now fleet.now q.0 ≡ false → result ≡ order_at graph.now fleet.now q.0 }
{
    if is_open(graph, fleet, q) {
        side_of(sides, q.0)
    } else {
        Some(fleet.side(q))
    }
}

/// The side that a pair has in a list, if it has one.
fn side_of(sides: &[(u32, Side)], number: u32) -> Option<Side> {
    for (pair, side) in sides {
        if *pair == number {
            return Some(*side);
        }
    }
    None
}

/// Whether the view has a schedule, which is then in the ticks.
pub fn schedules(view: &Oriented<'_>, fleet: &Fleet, ticks: &mut Ticks) -> bool
    requires state { IsFleetState view.now.graph fleet.now }
    requires room { IsKeptFor view.now.graph ticks.old }
    ensures { IsKeptFor view.now.graph ticks.new }
{
    earliest(view, fleet, ticks).is_ok()
}
