ghost use Rattle.std.specs.Prelude.{◌≡◌, ◌≢◌, ◌+◌, ◌<◌, ◌≤◌, suc, true, false, length};
ghost use Rattle.fleet_base.specs.Grid.{distance};
ghost use Rattle.fleet_base.specs.Plan.{cell_at, IsCollisionFree};
ghost use Rattle.fleet_base.specs.Limits.{tick_limit};
ghost use Rattle.plan_steps.specs.Steps.{IsClear, MayStep};
ghost use Rattle.plan_steps.specs.Traffic.{AreListed, EndsIn, IsRobotIn};

use fleet_base::{Cell, Grid, RawPlan};

/// Whether one more robot may go from a cell, in which no fixed robot is, to this cell, its neighbour or itself.
pub fn may_step(grid: &Grid, fixed: &RawPlan, tick: usize, from: Cell, to: Cell) -> bool
    requires paths { AreListed fixed.now }
    requires apart { IsCollisionFree fixed.now }
    requires tick { tick ≤ tick_limit }
    requires clear { IsClear fixed.now tick from }
    requires near { distance from to ≤ 1 }
    ensures yes { result ≡ true → MayStep grid.now fixed.now tick from to }
    ensures no { result ≡ false → ¬ MayStep grid.now fixed.now tick from to }
{
    if !grid.is_free(to) || robot_in(fixed, tick + 1, to).is_some() {
        return false;
    }
    match robot_in(fixed, tick, to) {
        Some(robot) => end_of(fixed, tick, robot) != from,
        None => true,
    }
}

/// Where the moves end that begin with this robot's, each into the cell from which the next one goes.
fn end_of(fixed: &RawPlan, tick: usize, robot: usize) -> Cell
    requires paths { AreListed fixed.now }
    requires apart { IsCollisionFree fixed.now }
    requires tick { tick ≤ tick_limit }
    requires robot { robot < length fixed.now }
    requires moves { cell_at fixed.now robot (suc tick) ≢ cell_at fixed.now robot tick }
    ensures { EndsIn fixed.now tick (cell_at fixed.now robot tick) result }
{
    let mut last = robot;
    while let Some(next) = robot_in(fixed, tick, cell_of(fixed, last, tick + 1)) {
        last = next;
    }
    cell_of(fixed, last, tick + 1)
}

/// Whether no fixed robot is in a cell at a tick.
pub fn is_clear(fixed: &RawPlan, tick: usize, at: Cell) -> bool
    requires { AreListed fixed.now }
    ensures yes { result ≡ true → IsClear fixed.now tick at }
    ensures no { result ≡ false → ¬ IsClear fixed.now tick at }
{
    robot_in(fixed, tick, at).is_none()
}

/// The fixed robot that is in a cell at a tick.
fn robot_in(fixed: &RawPlan, tick: usize, at: Cell) -> Option<usize>
    requires { AreListed fixed.now }
    ensures { IsRobotIn fixed.now tick at result }
{
    for robot in 0..fixed.robots() {
        if cell_of(fixed, robot, tick) == at {
            return Some(robot);
        }
    }
    None
}

/// The cell of a fixed robot at a tick.
fn cell_of(fixed: &RawPlan, robot: usize, tick: usize) -> Cell
    requires paths { AreListed fixed.now }
    requires robot { robot < length fixed.now }
    ensures { result ≡ cell_at fixed.now robot tick }
{
    let path = fixed.cells(robot);
    path[tick.min(path.len() - 1)]
}
