ghost use Rattle.std.specs.Prelude.{◌≡◌};
ghost use Rattle.fleet_base.specs.Order.{IsSoundOrder};
ghost use Rattle.fleet_base.specs.Rules.{IsFleetState};
ghost use Rattle.fleet_base.specs.Schedule.{IsCost};
ghost use Rattle.fleet_base.specs.Open.{KeepsClosed};
ghost use Rattle.plan_graph.specs.Views.{order_in};
ghost use Rattle.cert_check.specs.Rooms.{IsRoomFor};

use crate::Scratch;
use crate::rounds::{end_sum, relax};
use fleet_base::Fleet;
use plan_graph::Oriented;

/// What the order of a view costs: the least sum of last ticks that a schedule has which obeys it. It takes no memory.
pub fn order_cost(view: &Oriented<'_>, fleet: &Fleet, scratch: &mut Scratch) -> u64
    requires state { IsFleetState view.now.graph fleet.now }
    requires sound { IsSoundOrder view.now.graph (order_in view.now) }
    requires closed { KeepsClosed view.now.graph fleet.now (order_in view.now) }
    requires room { IsRoomFor view.now.graph scratch.old }
    ensures cost { IsCost view.now.graph fleet.now (order_in view.now) result }
    ensures room { scratch.new ≡ scratch.old }
{
    let graph = view.graph();
    let _within = graph.robots();
    let work = &mut scratch.work;
    work.way.take_sides(view);
    if !relax(graph, fleet, &work.way.sides, &mut work.ticks) {
        unreachable!();
    }
    end_sum(graph, &work.ticks) as u64
}
