ghost use Rattle.std.specs.Prelude.{◌≡◌, ◌++◌, ◌<◌, ◌≤◌, IfOk, OnOk, length, filter};
ghost use Rattle.std.specs.List.Sorted.{IsSortedByKey};
ghost use Rattle.fleet_base.specs.Lists.{row_of};
ghost use Rattle.fleet_base.specs.Plan.{IsOnRoute};
ghost use Rattle.fleet_base.specs.Grid.{cell_order};
ghost use Rattle.fleet_base.specs.Limits.{visit_limit};
ghost use Rattle.switch_pairs.specs.Stops.{stop_of, stops_of, all_stops, is_at, higher_stops, AreByCell, AreStops};

use fleet_base::{Cell, Memory, SoundPlan, Visit};
use std::alloc::Global;

/// A visit, with its cell and its first tick in the plan.
#[derive(Clone, Copy, Debug)]
pub struct Stop {
    pub visit: Visit,
    pub cell: Cell,
    pub tick: u64,
}

/// All visits of the plan by their cells; the visits at one cell stand by robot, then by number.
pub fn stops_by_cell(alloc: Global, plan: &SoundPlan) -> Result<Vec<Stop>, Memory>
    ensures { IfOk result (λ stops. AreStops plan.now stops.items) }
{
    let _robots = plan.robots();
    let mut stops = plan_stops(alloc, plan)?;
    stops.sort_by_key(|stop| stop.cell)?;
    Ok(stops)
}

/// All visits of the plan, by robot, then by number.
fn plan_stops(alloc: Global, plan: &SoundPlan) -> Result<Vec<Stop>, Memory>
    ensures { IfOk result (λ stops. stops.items ≡ all_stops plan.now) }
{
    let mut stops = Vec::new(alloc);
    for robot in 0..plan.robots() {
        push_stops(&mut stops, plan, robot)?;
    }
    Ok(stops)
}

/// Appends the visits of a robot.
fn push_stops(stops: &mut Vec<Stop>, plan: &SoundPlan, robot: u32) -> Result<(), Memory>
    requires { robot < length plan.now }
    ensures { OnOk result (stops.new.items ≡ stops.old.items ++ stops_of plan.now robot) }
{
    for index in 0..visits(plan, robot) {
        let stop = stop_at(plan, Visit { robot, index });
        stops.push(stop)?;
    }
    Ok(())
}

/// The number of visits of a robot.
pub fn visits(plan: &SoundPlan, robot: u32) -> u32
    requires { robot < length plan.now }
    ensures count { result ≡ length (row_of plan.now robot) }
    ensures few { result ≤ visit_limit }
{
    let _robots = plan.robots();
    plan.last(robot) + 1
}

/// A visit with its cell and its tick.
pub fn stop_at(plan: &SoundPlan, visit: Visit) -> Stop
    requires { IsOnRoute plan.now visit }
    ensures { result ≡ stop_of plan.now visit }
{
    Stop {
        visit,
        cell: plan.cell(visit),
        tick: plan.plan_tick(visit),
    }
}

/// The visits of robots with higher numbers at the cell of a visit.
pub fn higher_at(stops: &[Stop], stop: Stop) -> &[Stop]
    requires { AreByCell stops.now }
    ensures { result.now ≡ higher_stops stops.now stop }
{
    let here = at_cell(stops, stop.cell);
    let start = here.partition_point(|other| other.visit.robot <= stop.visit.robot);
    &here[start..]
}

/// The visits at a cell.
fn at_cell(stops: &[Stop], cell: Cell) -> &[Stop]
    requires { IsSortedByKey (λ s. s.cell) cell_order stops.now }
    ensures { result.now ≡ filter (is_at cell) stops.now }
{
    let start = stops.partition_point(|stop| stop.cell < cell);
    let rest = &stops[start..];
    let end = rest.partition_point(|stop| stop.cell <= cell);
    &rest[..end]
}
