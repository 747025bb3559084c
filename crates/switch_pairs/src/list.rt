ghost use Rattle.std.specs.Prelude.{◌≡◌, ◌++◌, ◌<◌, IfOk, OnOk, length, map};
ghost use Rattle.fleet_base.specs.Pairs.{pairs_of};
ghost use Rattle.switch_pairs.specs.Stops.{AreStops};
ghost use Rattle.switch_pairs.specs.Found.{pair_of_stops, pairs_by_visit, pairs_of_lower};

use crate::stops::{Stop, higher_at, stop_at, visits};
use fleet_base::{Memory, Pair, Side, SoundPlan, Visit};
use std::alloc::Global;

/// The pairs of the plan, in their order.
pub fn list_pairs(alloc: Global, plan: &SoundPlan, stops: &[Stop]) -> Result<Vec<Pair>, Memory>
    requires { AreStops plan.now stops.now }
    ensures { IfOk result (λ list. list.items ≡ pairs_of plan.now) }
{
    let mut list = Vec::new(alloc);
    for robot in 0..plan.robots() {
        let found = sorted_pairs(alloc, plan, stops, robot)?;
        list.extend_from_slice(&found)?;
    }
    Ok(list)
}

/// The pairs in which a robot is the lower one, in their order.
fn sorted_pairs(
    alloc: Global,
    plan: &SoundPlan,
    stops: &[Stop],
    robot: u32,
) -> Result<Vec<Pair>, Memory>
    requires robot { robot < length plan.now }
    requires stops { AreStops plan.now stops.now }
    ensures { IfOk result (λ list. list.items ≡ pairs_of_lower plan.now robot) }
{
    let mut found = found_pairs(alloc, plan, stops, robot)?;
    found.sort_by_key(|pair| pair.higher.robot)?;
    Ok(found)
}

/// The pairs in which a robot is the lower one, by its visits.
fn found_pairs(
    alloc: Global,
    plan: &SoundPlan,
    stops: &[Stop],
    robot: u32,
) -> Result<Vec<Pair>, Memory>
    requires robot { robot < length plan.now }
    requires stops { AreStops plan.now stops.now }
    ensures { IfOk result (λ list. list.items ≡ pairs_by_visit plan.now robot) }
{
    let mut found = Vec::new(alloc);
    for index in 0..visits(plan, robot) {
        let stop = stop_at(plan, Visit { robot, index });
        push_pairs(&mut found, stop, higher_at(stops, stop))?;
    }
    Ok(found)
}

/// Appends the pairs of a visit with visits of higher robots at its cell.
fn push_pairs(found: &mut Vec<Pair>, stop: Stop, higher: &[Stop]) -> Result<(), Memory>
    ensures { OnOk result (found.new.items ≡ found.old.items ++ map (pair_of_stops stop) higher.now) }
{
    for other in higher {
        found.push(pair(stop, *other))?;
    }
    Ok(())
}

/// The pair of two visits at one cell; the one with the earlier tick is first.
fn pair(lower: Stop, higher: Stop) -> Pair
    ensures { result ≡ pair_of_stops lower higher }
{
    let first = if lower.tick < higher.tick {
        Side::Lower
    } else {
        Side::Higher
    };
    Pair {
        lower: lower.visit,
        higher: higher.visit,
        first,
    }
}
