ghost use Rattle.std.specs.Prelude.{◌≡◌, ◌≢◌, ◌+◌, ◌<◌, ◌≤◌, ℕ, length};
ghost use Rattle.fleet_base.specs.declared.geometry.Visit.{Visit};
ghost use Rattle.fleet_base.specs.Lists.{row_of};
ghost use Rattle.fleet_base.specs.Order.{last_in};
ghost use Rattle.fleet_base.specs.Rules.{IsFleetState};
ghost use Rattle.fleet_base.specs.VisitRows.{tick_in, AreRowsFor, KeepsRows};
ghost use Rattle.cert_check.specs.Sums.{AreSums, HasRowSums};

use fleet_base::{Fleet, Items, Visit};
use plan_graph::PlanGraph;

/// For each visit how long the moves of its robot up to it last together, robot by robot.
pub(crate) type Sums = Items<Items<u64>>;

/// Sums up the durations along each robot.
pub(crate) fn sum_up(graph: &PlanGraph, fleet: &Fleet, sums: &mut Sums)
    requires state { IsFleetState graph.now fleet.now }
    requires rows { AreRowsFor graph.now sums.old }
    ensures sums { AreSums graph.now fleet.now sums.new }
    ensures rows { KeepsRows sums.old sums.new }
{
    for robot in 0..graph.robots() {
        sum_row(graph, fleet, robot, sums);
    }
}

/// Sums up the durations along one robot.
fn sum_row(graph: &PlanGraph, fleet: &Fleet, robot: u32, sums: &mut Sums)
    requires state { IsFleetState graph.now fleet.now }
    requires rows { AreRowsFor graph.now sums.old }
    requires robot { robot < length graph.now.lasts }
    ensures row { HasRowSums fleet.now sums.new robot (last_in graph.now robot) }
    ensures others { (v : Visit) → v.robot ≢ robot → tick_in sums.new v ≡ tick_in sums.old v }
    ensures rows { KeepsRows sums.old sums.new }
{
    let _within = graph.robots();
    let mut sum = 0;
    sums.set_in(robot as usize, 0, sum);
    for index in 0..graph.last(robot) {
        let next = Visit { robot, index }.next();
        sum += fleet.duration(next);
        sums.set_in(robot as usize, next.index as usize, sum);
    }
}

/// How long the moves of a robot last that lead from a visit on to this one or a later one.
pub(crate) fn moves(sums: &Sums, from: Visit, to: u32) -> u64
    requires onward { from.index ≤ to }
    requires within { to < length (row_of sums.now from.robot) }
    requires rising { tick_in sums.now from ≤ tick_in sums.now (record { robot = from.robot; index = to }) }
    ensures { result + tick_in sums.now from ≡ tick_in sums.now (record { robot = from.robot; index = to }) }
{
    let row = sums.row(from.robot as usize);
    row[to as usize] - row[from.index as usize]
}
