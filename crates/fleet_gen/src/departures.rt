ghost use Rattle.std.specs.Prelude.{◌≡◌, ◌+◌, ◌*◌, ◌<◌, ◌≤◌, ◌++◌, ◌∷◌, [], true, false, IfOk, length};
ghost use Rattle.fleet_base.specs.Plan.{IsSound};
ghost use Rattle.fleet_gen.specs.Roads.{IsRoad, path_of};
ghost use Rattle.fleet_gen.specs.Departures.{AreBeside, AreEarliest, AreRoads, IsFreeRoad, IsLeastWait};

use crate::Road;
use fleet_base::{Grid, Memory, RawPlan};
use plan_steps::may_step;
use std::alloc::Global;

/// The plan of robots that depart in turn, each as early as it may beside those before it.
pub(crate) fn depart_in_turn(alloc: Global, grid: &Grid, roads: &[Road]) -> Result<RawPlan, Memory>
    requires { AreRoads grid.now roads.now }
    ensures robots { IfOk result (λ plan. length plan ≡ length roads.now) }
    ensures earliest { IfOk result (λ plan. AreEarliest grid.now roads.now plan) }
{
    let mut plan = RawPlan::new(alloc);
    for road in roads {
        let wait = least_wait(grid, &plan, *road);
        plan.push_path(road.path(alloc, wait)?)?;
    }
    Ok(plan)
}

/// The least number of ticks that a robot has to wait at its first cell beside robots whose paths are fixed.
fn least_wait(grid: &Grid, fixed: &RawPlan, road: Road) -> u32
    requires road { IsRoad road }
    requires free { IsFreeRoad grid.now road }
    requires sound { IsSound grid.now fixed.now }
    requires beside { AreBeside road (62 * length fixed.now) fixed.now }
    requires few { length fixed.now < 32 }
    ensures least { IsLeastWait grid.now fixed.now road result }
    ensures bound { result ≤ 62 * length fixed.now }
{
    let mut wait = 0;
    while !may_depart(grid, fixed, road, wait) {
        wait += 1;
    }
    wait
}

/// Whether a robot that waits so long goes along its road without meeting those whose paths are fixed.
fn may_depart(grid: &Grid, fixed: &RawPlan, road: Road, wait: u32) -> bool
    requires road { IsRoad road }
    requires free { IsFreeRoad grid.now road }
    requires sound { IsSound grid.now fixed.now }
    requires beside { AreBeside road (62 * length fixed.now) fixed.now }
    requires wait { wait ≤ 1984 }
    ensures yes { result ≡ true → IsSound grid.now (fixed.now ++ path_of road wait ∷ []) }
    ensures no { result ≡ false → ¬ IsSound grid.now (fixed.now ++ path_of road wait ∷ []) }
{
    for moved in 0..road.moves() {
        let tick = (wait + moved) as usize;
        if !may_step(grid, fixed, tick, road.cell(moved), road.cell(moved + 1)) {
            return false;
        }
    }
    true
}
