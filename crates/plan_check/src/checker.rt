ghost use Rattle.std.specs.Prelude.{◌≡◌, ◌<◌, ◌≤◌, ◌-◌, ◌+◌, All, IfOk, OnOk, MatchOption, length, ⊤, ℕ};
ghost use Rattle.fleet_base.specs.Lists.{row_of};
ghost use Rattle.fleet_base.specs.Plan.{HasRobots, IsAccepted, IsWithinLimits, visits_of};
ghost use Rattle.plan_check.specs.declared.fault.Unsound.{Unsound};
ghost use Rattle.plan_check.specs.Faults.{IsFaultless, IsFirstFault};
ghost use Rattle.plan_check.specs.Ticks.{NoneBefore};
ghost use Rattle.plan_check.specs.Occupants.{HasOccupants};

use crate::limits::too_large;
use crate::occupants::{Occupants, occupants_at};
use crate::paths::{blocked_at, jump_at};
use crate::rotations::rotation_at;
use crate::swaps::swap_at;
use crate::{CheckError, Unsound};
use fleet_base::{Grid, Memory, RawPlan, SoundPlan};
use std::alloc::Global;
use std::mem;

/// Checks that a plan can be carried out on a grid. It answers the visits of the plan if it has no fault, and
/// otherwise its first fault: a limit that it is above (the robots, then the ticks, then the visits); then the fault
/// with the least tick, at one tick the first of blocked, jump, share, swap and rotation, and of one kind that with
/// the least robot, the least two robots, or the rotation with the least robot, listed from it.
pub fn check(alloc: Global, grid: &Grid, raw: &RawPlan) -> Result<SoundPlan, CheckError>
    requires robots { 1 ≤ length raw.now }
    requires paths { All (λ path. 1 ≤ length path) raw.now }
    ensures faultless { OnOk result (IsFaultless grid.now raw.now) }
    ensures accepted { OnOk result (IsAccepted grid.now raw.now) }
    ensures visits { IfOk result (λ plan. plan ≡ visits_of raw.now) }
    ensures unsound { (fault : Unsound) → result ≡ Err (CheckError.Unsound fault)
        → IsFirstFault grid.now raw.now fault }
{
    match first_fault(alloc, grid, raw)? {
        None => Ok(SoundPlan::from_raw(alloc, grid, raw)?),
        Some(fault) => Err(CheckError::Unsound(fault)),
    }
}

/// The first fault of a plan.
fn first_fault(alloc: Global, grid: &Grid, raw: &RawPlan) -> Result<Option<Unsound>, Memory>
    requires { HasRobots raw.now }
    ensures { IfOk result (λ fault. MatchOption fault (IsFaultless grid.now raw.now) (IsFirstFault grid.now raw.now)) }
{
    if let Some((which, count)) = too_large(raw) {
        return Ok(Some(Unsound::TooLarge { which, count }));
    }
    let mut occupants = Occupants::new(alloc);
    for tick in 0..listed_ticks(raw) {
        if let Some(fault) = fault_at(alloc, grid, raw, tick, &mut occupants)? {
            return Ok(Some(fault));
        }
    }
    Ok(None)
}

/// The number of ticks for which some robot has a listed cell.
fn listed_ticks(raw: &RawPlan) -> usize
    requires { HasRobots raw.now }
    ensures some { 1 ≤ result }
    ensures all { (i : ℕ) → i < length raw.now → length (row_of raw.now i) ≤ result }
{
    let mut ticks = 1;
    for robot in 0..raw.robots() {
        ticks = ticks.max(raw.cells(robot).len());
    }
    ticks
}

/// The first fault at a tick, where none comes before it. `occupants` is who was where at the tick before, and then
/// who is where at this one.
fn fault_at(
    alloc: Global,
    grid: &Grid,
    raw: &RawPlan,
    tick: usize,
    occupants: &mut Occupants,
) -> Result<Option<Unsound>, Memory>
    requires plan { HasRobots raw.now }
    requires limits { IsWithinLimits raw.now }
    requires none { NoneBefore grid.now raw.now tick 1 }
    requires former { 1 ≤ tick → HasOccupants occupants.old raw.now (tick - 1) 0 }
    ensures occupants { IfOk result (λ fault. MatchOption fault (HasOccupants occupants.new raw.now tick 0) (λ _. ⊤)) }
    ensures fault { IfOk result (λ fault.
        MatchOption fault (NoneBefore grid.now raw.now (tick + 1) 1) (IsFirstFault grid.now raw.now)) }
{
    if let Some(fault) = blocked_at(grid, raw, tick) {
        return Ok(Some(fault));
    }
    if let Some(fault) = jump_at(raw, tick) {
        return Ok(Some(fault));
    }
    let (present, share) = occupants_at(alloc, raw, tick)?;
    let former = mem::replace(occupants, present);
    if let Some((a, b)) = share {
        return Ok(Some(Unsound::Share {
            a,
            b,
            tick: tick as u64,
        }));
    }
    if tick == 0 {
        return Ok(None);
    }
    if let Some((a, b)) = swap_at(raw, &former, tick) {
        return Ok(Some(Unsound::Swap {
            a,
            b,
            tick: tick as u64,
        }));
    }
    match rotation_at(alloc, raw, &former, tick)? {
        Some(robots) => Ok(Some(Unsound::Rotation {
            robots,
            tick: tick as u64,
        })),
        None => Ok(None),
    }
}
