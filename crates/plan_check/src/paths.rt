ghost use Rattle.std.specs.Prelude.{◌≡◌, ◌<◌, ◌≤◌, ◌↔◌, IsTrue, length};
ghost use Rattle.fleet_base.specs.Grid.{OccupancyGrid, distance};
ghost use Rattle.fleet_base.specs.Limits.{robot_limit};
ghost use Rattle.plan_check.specs.Ticks.{IsFirstOrNone, Jumps};

use crate::Unsound;
use fleet_base::{Cell, Grid, RawPlan};

/// The least robot that is listed at the tick in a cell that is not free.
pub(crate) fn blocked_at(grid: &Grid, raw: &RawPlan, tick: usize) -> Option<Unsound>
    requires { length raw.now ≤ robot_limit }
    ensures { IsFirstOrNone grid.now raw.now tick 1 result }
{
    for robot in 0..raw.robots() {
        let path = raw.cells(robot);
        if tick < path.len() && !grid.is_free(path[tick]) {
            return Some(Unsound::Blocked {
                robot: robot as u32,
                tick: tick as u64,
            });
        }
    }
    None
}

/// The least robot that is listed at the tick in a cell that it cannot enter from the one before.
pub(crate) fn jump_at(raw: &RawPlan, tick: usize) -> Option<Unsound>
    requires { length raw.now ≤ robot_limit }
    ensures { (grid : OccupancyGrid) → IsFirstOrNone grid raw.now tick 2 result }
{
    for robot in 0..raw.robots() {
        if jumps_at(raw, robot, tick) {
            return Some(Unsound::Jump {
                robot: robot as u32,
                tick: tick as u64,
            });
        }
    }
    None
}

/// Whether the robot is listed at the tick in a cell that it cannot enter from the one before.
fn jumps_at(raw: &RawPlan, robot: usize, tick: usize) -> bool
    requires { robot < length raw.now }
    ensures { IsTrue result ↔ Jumps raw.now robot tick }
{
    let path = raw.cells(robot);
    0 < tick && tick < path.len() && !is_step(path[tick - 1], path[tick])
}

/// Whether a robot may be in the cells at two ticks, one after the other: they are the same, or neighbours.
fn is_step(from: Cell, to: Cell) -> bool
    ensures { IsTrue result ↔ (distance from to ≤ 1) }
{
    let rows = u64::from(from.row.abs_diff(to.row));
    let cols = u64::from(from.col.abs_diff(to.col));
    rows + cols <= 1
}
