ghost use Rattle.std.specs.Prelude.{◌≡◌, ◌<◌, ◌≤◌, ◌-◌, length};
ghost use Rattle.fleet_base.specs.Plan.{HasRobots};
ghost use Rattle.fleet_base.specs.Limits.{robot_limit};
ghost use Rattle.plan_check.specs.Occupants.{HasOccupants};
ghost use Rattle.plan_check.specs.Ticks.{MovesApart, IsLeader, IsPartner, IsFirstPair, Swaps};

use crate::occupants::Occupants;
use crate::places::cell_at;
use fleet_base::RawPlan;

/// The first two robots that enter each other's cells at the tick; `former` is who was where at the tick before.
pub(crate) fn swap_at(raw: &RawPlan, former: &Occupants, tick: usize) -> Option<(u32, u32)>
    requires plan { HasRobots raw.now }
    requires robots { length raw.now ≤ robot_limit }
    requires former { HasOccupants former.now raw.now (tick - 1) 0 }
    requires apart { MovesApart raw.now tick }
    ensures { IsFirstPair (Swaps raw.now tick) result }
{
    for robot in 0..raw.robots() {
        if let Some(other) = partner_of(raw, former, robot, tick) {
            return Some((robot as u32, other));
        }
    }
    None
}

/// The robot of a greater number with which a robot exchanges its cell at the tick.
fn partner_of(raw: &RawPlan, former: &Occupants, robot: usize, tick: usize) -> Option<u32>
    requires plan { HasRobots raw.now }
    requires robots { length raw.now ≤ robot_limit }
    requires robot { robot < length raw.now }
    requires former { HasOccupants former.now raw.now (tick - 1) 0 }
    requires apart { MovesApart raw.now tick }
    ensures { IsPartner raw.now tick robot result }
{
    let other = leader_of(raw, former, robot, tick)?;
    let swaps = robot < other as usize
        && cell_at(raw, other as usize, tick) == cell_at(raw, robot, tick - 1);
    if swaps { Some(other) } else { None }
}

/// The robot whose former cell a robot enters at the tick.
pub(crate) fn leader_of(raw: &RawPlan, former: &Occupants, robot: usize, tick: usize) -> Option<u32>
    requires plan { HasRobots raw.now }
    requires robot { robot < length raw.now }
    requires former { HasOccupants former.now raw.now (tick - 1) 0 }
    requires tick { 1 ≤ tick }
    ensures { IsLeader raw.now (tick - 1) robot result }
{
    let to = cell_at(raw, robot, tick);
    if to == cell_at(raw, robot, tick - 1) {
        return None;
    }
    former.get(&to).copied()
}
