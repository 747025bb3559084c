// How robots end a run.
ghost use Rattle.std.specs.Prelude.{IsTrue};
ghost use Rattle.archive_keep.specs.Rows.{IsStorable};

use fleet_base::Items;
use fleet_base::limits::{LAST_TICK, MOMENT, ROBOTS};

/// How many runs an archive holds at most.
pub const RUNS: u64 = 1_000_000;

/// How a robot ended a run: the tick of its last visit in the plan, and the one at which it arrived there.
#[derive(Clone, Copy, Debug, PartialEq, Eq)]
pub struct RobotEnd {
    pub planned: u64,
    pub actual: u64,
}

/// The ends of robots, one after another.
pub type EndList = Items<RobotEnd>;

/// Whether the ends of a run may be stored: those of 1 to 256 robots, with ticks within the limits of plans and reports.
pub fn is_storable(ends: &EndList) -> bool
    ensures storable { IsTrue result → IsStorable ends.now }
    ensures not { IsStorable ends.now → IsTrue result }
{
    if ends.is_empty() || ends.len() as u64 > u64::from(ROBOTS) {
        return false;
    }
    for ticks in ends.as_slice() {
        if ticks.planned > u64::from(LAST_TICK) || ticks.actual > MOMENT {
            return false;
        }
    }
    true
}
