ghost use Rattle.std.specs.Prelude.{ℕ, ◌≡◌, ◌+◌, ◌<◌, ◌≤◌, true, false, length};
ghost use Rattle.fleet_base.specs.Grid.{distance};
ghost use Rattle.fleet_base.specs.Plan.{cell_at, IsSound, IsCollisionFree};
ghost use Rattle.fleet_base.specs.Limits.{tick_limit};
ghost use Rattle.path_planner.specs.Search.{AreInTime};
ghost use Rattle.plan_steps.specs.Steps.{IsClear, IsClosed, MayStep};
ghost use Rattle.plan_steps.specs.Traffic.{IsRobotIn};
ghost use Rattle.path_planner.specs.Tables.{Covers, TellsRobots};

use crate::tables::{CellTable, put, value_of};
use fleet_base::{Cell, Grid, RawPlan};

/// Writes at the cells of the fixed robots at the tick after this one which robot it is.
pub(crate) fn turn_to(grid: &Grid, fixed: &RawPlan, tick: usize, traffic: &mut CellTable)
    requires paths { AreInTime tick_limit fixed.now }
    requires sound { IsSound grid.now fixed.now }
    requires tick { tick ≤ tick_limit }
    requires covers { Covers grid.now traffic.old }
    ensures covers { Covers grid.now traffic.new }
    ensures robots { TellsRobots fixed.now (tick + 1) traffic.new }
{
    for robot in 0..fixed.robots() {
        let at = cell_of(fixed, robot, tick + 1);
        put(traffic, at, robot);
    }
}

/// Whether one more robot may go from a cell, in which no fixed robot is, to this cell, its neighbour or itself.
pub(crate) fn may_step(
    grid: &Grid,
    fixed: &RawPlan,
    traffic: &CellTable,
    tick: usize,
    from: Cell,
    to: Cell,
) -> bool
    requires paths { AreInTime tick_limit fixed.now }
    requires apart { IsCollisionFree fixed.now }
    requires tick { tick ≤ tick_limit }
    requires robots { TellsRobots fixed.now (tick + 1) traffic.now }
    requires clear { IsClear fixed.now tick from }
    requires near { distance from to ≤ 1 }
    ensures yes { result ≡ true → MayStep grid.now fixed.now tick from to }
    ensures no { result ≡ false → ¬ MayStep grid.now fixed.now tick from to }
{
    grid.is_free(to)
        && robot_in(fixed, traffic, tick + 1, to).is_none()
        && !is_closed(fixed, traffic, tick, to, from)
}

/// Whether moves, each into the cell from which the next one goes, lead from a cell to another. They are followed back from
/// the cell where they end, so that each robot's move is looked at from one cell alone.
fn is_closed(fixed: &RawPlan, traffic: &CellTable, tick: usize, from: Cell, to: Cell) -> bool
    requires paths { AreInTime tick_limit fixed.now }
    requires apart { IsCollisionFree fixed.now }
    requires tick { tick ≤ tick_limit }
    requires robots { TellsRobots fixed.now (tick + 1) traffic.now }
    requires clear { IsClear fixed.now tick to }
    ensures yes { result ≡ true → IsClosed fixed.now tick from to }
    ensures no { result ≡ false → ¬ IsClosed fixed.now tick from to }
{
    let mut entering = robot_in(fixed, traffic, tick + 1, to);
    while let Some(robot) = entering {
        let left = cell_of(fixed, robot, tick);
        if left == from {
            return true;
        }
        entering = robot_in(fixed, traffic, tick + 1, left);
    }
    false
}

/// Whether no fixed robot is in a cell at a tick.
pub(crate) fn is_clear(fixed: &RawPlan, tick: usize, at: Cell) -> bool
    requires paths { AreInTime tick_limit fixed.now }
    ensures yes { result ≡ true → IsClear fixed.now tick at }
    ensures no { result ≡ false → ¬ IsClear fixed.now tick at }
{
    for robot in 0..fixed.robots() {
        if cell_of(fixed, robot, tick) == at {
            return false;
        }
    }
    true
}

/// The fixed robot that is in a cell at a tick, of which the table tells.
fn robot_in(fixed: &RawPlan, table: &CellTable, tick: usize, at: Cell) -> Option<usize>
    requires paths { AreInTime tick_limit fixed.now }
    requires robots { TellsRobots fixed.now tick table.now }
    ensures { IsRobotIn fixed.now tick at result }
{
    let robot = value_of(table, at);
    if robot >= fixed.robots() {
        return None;
    }
    if cell_of(fixed, robot, tick) == at {
        return Some(robot);
    }
    None
}

/// The cell of a fixed robot at a tick.
fn cell_of(fixed: &RawPlan, robot: usize, tick: usize) -> Cell
    requires paths { AreInTime tick_limit fixed.now }
    requires robot { robot < length fixed.now }
    ensures { result ≡ cell_at fixed.now robot tick }
{
    let path = fixed.cells(robot);
    path[tick.min(path.len() - 1)]
}
