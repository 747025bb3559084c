ghost use Rattle.std.specs.Prelude.{◌≡◌, ◌≤◌, IfOk, OnOk, Some, length};
ghost use Rattle.std.specs.BTreeMap.{Updates};
ghost use Rattle.fleet_base.specs.Plan.{HasRobots};
ghost use Rattle.fleet_base.specs.Limits.{robot_limit};
ghost use Rattle.fleet_base.specs.Grid.{cell_order};
ghost use Rattle.plan_check.specs.Occupants.{HasOccupants, SharesFrom, occupant};
ghost use Rattle.plan_check.specs.Ticks.{IsFirstPair};

use crate::places::cell_at;
use fleet_base::{Cell, Memory, RawPlan};
use std::alloc::Global;
use std::collections::BTreeMap;

/// The least robot in each cell that is occupied at a tick.
pub(crate) type Occupants = BTreeMap<Cell, u32>;

/// Who is in which cell at the tick, and the least two robots that share one.
pub(crate) fn occupants_at(
    alloc: Global,
    raw: &RawPlan,
    tick: usize,
) -> Result<(Occupants, Option<(u32, u32)>), Memory>
    requires plan { HasRobots raw.now }
    requires robots { length raw.now ≤ robot_limit }
    ensures occupants { IfOk result (λ found. HasOccupants found.0 raw.now tick 0) }
    ensures share { IfOk result (λ found. IsFirstPair (SharesFrom raw.now tick 0) found.1) }
{
    let mut occupants = Occupants::new(alloc);
    let mut share = None;
    // From the last robot down, so that a cell is left to its least robot, and the pair found last is the least.
    for robot in (0..raw.robots()).rev() {
        let at = cell_at(raw, robot, tick);
        if let Some(other) = put(&mut occupants, at, robot as u32)? {
            share = Some((robot as u32, other));
        }
    }
    Ok((occupants, share))
}

/// Puts a robot into a cell, and answers the one that was there.
fn put(occupants: &mut Occupants, at: Cell, robot: u32) -> Result<Option<u32>, Memory>
    ensures former { IfOk result (λ former. former ≡ occupant occupants.old at) }
    ensures put { OnOk result (Updates cell_order occupants.old occupants.new at (Some robot)) }
{
    Ok(occupants.insert(at, robot)?)
}
