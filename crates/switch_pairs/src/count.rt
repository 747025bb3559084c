ghost use Rattle.std.specs.Prelude.{◌≡◌, ◌<◌, ◌≤◌, length, ◌*◌};
ghost use Rattle.fleet_base.specs.Pairs.{pairs_of};
ghost use Rattle.fleet_base.specs.Limits.{visit_limit};
ghost use Rattle.switch_pairs.specs.Stops.{AreStops};
ghost use Rattle.switch_pairs.specs.Found.{pairs_by_visit};

use crate::stops::{Stop, higher_at, stop_at, visits};
use fleet_base::{SoundPlan, Visit};

/// The number of pairs of the plan.
pub fn count_pairs(plan: &SoundPlan, stops: &[Stop]) -> u64
    requires { AreStops plan.now stops.now }
    ensures { result ≡ length (pairs_of plan.now) }
{
    let mut count = 0;
    for robot in 0..plan.robots() {
        count += count_of_robot(plan, stops, robot);
    }
    count
}

/// The number of pairs in which a robot is the lower one.
fn count_of_robot(plan: &SoundPlan, stops: &[Stop], robot: u32) -> u64
    requires robot { robot < length plan.now }
    requires stops { AreStops plan.now stops.now }
    ensures count { result ≡ length (pairs_by_visit plan.now robot) }
    ensures few { result ≤ visit_limit * visit_limit }
{
    let mut count = 0;
    for index in 0..visits(plan, robot) {
        let stop = stop_at(plan, Visit { robot, index });
        count += higher_at(stops, stop).len() as u64;
    }
    count
}
