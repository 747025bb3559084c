ghost use Rattle.std.specs.Prelude.{◌≡◌, ◌<◌, length};
ghost use Rattle.fleet_base.specs.Plan.{HasRobots, cell_at};

use fleet_base::{Cell, RawPlan};

/// The cell of a robot at a tick: its listed cell, and its last one at every later tick.
pub(crate) fn cell_at(raw: &RawPlan, robot: usize, tick: usize) -> Cell
    requires plan { HasRobots raw.now }
    requires robot { robot < length raw.now }
    ensures { result ≡ cell_at raw.now robot tick }
{
    let path = raw.cells(robot);
    path[tick.min(path.len() - 1)]
}
