ghost use Rattle.std.specs.Prelude.{◌≡◌, ◌+◌, ◌<◌, ◌≤◌, All, MatchOption, length, sum_by};
ghost use Rattle.fleet_base.specs.Plan.{HasRobots, IsWithinLimits, visits_of, visits_of_path};
ghost use Rattle.fleet_base.specs.Limits.{robot_limit, tick_limit};
ghost use Rattle.plan_check.specs.declared.fault.Large.TheVariants.{Ticks};
ghost use Rattle.plan_check.specs.Faults.{IsTooLarge};

use crate::Large;
use fleet_base::limits::{self, LAST_TICK, VISITS};
use fleet_base::{Cell, RawPlan};

/// The most robots of a plan.
pub(crate) const ROBOTS: usize = limits::ROBOTS as usize;

/// The first limit that the plan is above, with the number that is above it.
pub(crate) fn too_large(raw: &RawPlan) -> Option<(Large, u64)>
    requires { HasRobots raw.now }
    ensures { MatchOption result (IsWithinLimits raw.now) (λ found. IsTooLarge raw.now found.1 found.0) }
{
    let robots = raw.robots();
    if robots > ROBOTS {
        return Some((Large::Robots, robots as u64));
    }
    if let Some(tick) = late_tick(raw) {
        return Some((Large::Ticks, tick));
    }
    let visits = visits(raw);
    if visits > VISITS as usize {
        return Some((Large::Visits, visits as u64));
    }
    None
}

/// The last listed tick of the first robot for which that is too late.
fn late_tick(raw: &RawPlan) -> Option<u64>
    requires { length raw.now ≤ robot_limit }
    ensures { MatchOption result (All (λ path. length path ≤ tick_limit + 1) raw.now) (λ tick. IsTooLarge raw.now tick Ticks) }
{
    for robot in 0..raw.robots() {
        let ticks = raw.cells(robot).len();
        if ticks > LAST_TICK as usize + 1 {
            return Some((ticks - 1) as u64);
        }
    }
    None
}

/// The number of visits of all robots.
fn visits(raw: &RawPlan) -> usize
    requires robots { length raw.now ≤ robot_limit }
    requires ticks { All (λ path. length path ≤ tick_limit + 1) raw.now }
    ensures { result ≡ sum_by length (visits_of raw.now) }
{
    let mut visits = 0;
    for robot in 0..raw.robots() {
        visits += visits_of_path(raw.cells(robot));
    }
    visits
}

/// The number of visits of a path: its cells without direct repeats.
fn visits_of_path(cells: &[Cell]) -> usize
    ensures count { result ≡ length (visits_of_path cells.now) }
    ensures few { result ≤ length cells.now }
{
    let [first, rest @ ..] = cells else {
        return 0;
    };
    let mut here = *first;
    let mut visits = 1;
    for cell in rest {
        if *cell != here {
            visits += 1;
        }
        here = *cell;
    }
    visits
}
