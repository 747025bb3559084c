ghost use Rattle.std.specs.Prelude.{◌≡◌, ◌<◌, ◌≤◌, ◌-◌, ℕ, false, IfOk, length, slice_index_or};
ghost use Rattle.fleet_base.specs.Plan.{HasRobots};
ghost use Rattle.fleet_base.specs.Limits.{robot_limit};
ghost use Rattle.plan_check.specs.Occupants.{HasOccupants};
ghost use Rattle.plan_check.specs.Ticks.{MovesApart, IsSwapFree, IsFirstRotation, IsRingFrom, IsMarked, AreOut};

use crate::limits::ROBOTS;
use crate::occupants::Occupants;
use crate::swaps::leader_of;
use fleet_base::{Memory, RawPlan, RobotList};
use std::alloc::Global;

/// The rotation at the tick with the least robot, listed from it; `former` is who was where at the tick before.
pub(crate) fn rotation_at(
    alloc: Global,
    raw: &RawPlan,
    former: &Occupants,
    tick: usize,
) -> Result<Option<RobotList>, Memory>
    requires plan { HasRobots raw.now }
    requires robots { length raw.now ≤ robot_limit }
    requires former { HasOccupants former.now raw.now (tick - 1) 0 }
    requires apart { MovesApart raw.now tick }
    requires swaps { IsSwapFree raw.now tick }
    ensures { IfOk result (IsFirstRotation raw.now (tick - 1)) }
{
    let mut marks = [false; ROBOTS];
    for head in 0..raw.robots() {
        if marks[head] {
            continue;
        }
        if let Some(robots) = ring_from(alloc, raw, former, tick, head, &mut marks)? {
            return Ok(Some(robots));
        }
    }
    Ok(None)
}

/// The rotation through a robot, listed from it. Each robot is followed by the one whose former cell it enters, and
/// marked: it is walked through once for all robots from which it is reached.
fn ring_from(
    alloc: Global,
    raw: &RawPlan,
    former: &Occupants,
    tick: usize,
    head: usize,
    marks: &mut [bool],
) -> Result<Option<RobotList>, Memory>
    requires plan { HasRobots raw.now }
    requires robots { length raw.now ≤ robot_limit }
    requires former { HasOccupants former.now raw.now (tick - 1) 0 }
    requires apart { MovesApart raw.now tick }
    requires swaps { IsSwapFree raw.now tick }
    requires head { head < length raw.now }
    requires marks { length raw.now ≤ length marks.old }
    requires new { slice_index_or marks.old head false ≡ false }
    requires out { AreOut raw.now (tick - 1) marks.old }
    ensures kept { (i : ℕ) → IsMarked marks.old i → IsMarked marks.new i }
    ensures ring { IfOk result (IsRingFrom raw.now (tick - 1) head marks.new) }
{
    let mut walk = RobotList::new(alloc);
    let mut robot = head;
    while !marks[robot] {
        marks[robot] = true;
        walk.push(robot as u32)?;
        match leader_of(raw, former, robot, tick) {
            Some(leader) => robot = leader as usize,
            None => return Ok(None),
        }
    }
    if robot == head {
        Ok(Some(walk))
    } else {
        Ok(None)
    }
}
