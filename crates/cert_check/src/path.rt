ghost use Rattle.std.specs.Prelude.{◌≡◌, ◌<◌, ◌≤◌, ◌^◌, true, length, map, IfSome, IfNone, slice_index};
ghost use Rattle.std.specs.List.Sorted.{IsStrictlyIncreasing};
ghost use Rattle.fleet_base.specs.Order.{IsVisit, last_in};
ghost use Rattle.fleet_base.specs.State.{arrived_count, duration_of};
ghost use Rattle.fleet_base.specs.Rules.{IsFleetState};
ghost use Rattle.fleet_base.specs.Paths.{walk_end, coming, start_tick, has_finished, finished_length, start_robot, path_length};
ghost use Rattle.cert_tree.specs.Paths.{total_length, ArePaths};
ghost use Rattle.cert_check.specs.Sides.{order_by, HasSides};
ghost use Rattle.cert_check.specs.Judging.{TakesPath};
ghost use Rattle.cert_check.specs.Sums.{AreSums};

use crate::edges::{find_edge, leads_on};
use crate::sums::{Sums, moves};
use cert_tree::CertPath;
use fleet_base::{Fleet, PairId, Side, Visit};
use plan_graph::PlanGraph;

/// Whether a robot has arrived at its last visit.
fn has_finished(graph: &PlanGraph, fleet: &Fleet, robot: u32) -> bool
    requires state { IsFleetState graph.now fleet.now }
    requires robot { robot < length graph.now.lasts }
    ensures { result ≡ has_finished graph.now fleet.now robot }
{
    fleet.arrived(robot) >= graph.last(robot)
}

/// The first visit of a robot that has not arrived.
fn first_to_come(graph: &PlanGraph, fleet: &Fleet, robot: u32) -> Visit
    requires state { IsFleetState graph.now fleet.now }
    requires robot { robot < length graph.now.lasts }
    requires going { arrived_count fleet.now robot ≤ last_in graph.now robot }
    ensures value { result ≡ coming fleet.now robot }
    ensures there { IsVisit graph.now result }
{
    let _within = graph.robots();
    let _last = graph.last(robot);
    let index = fleet.arrived(robot);
    Visit { robot, index }.next()
}

/// When the move to the first visit of a robot that has not arrived can end, other robots apart.
fn earliest_end(graph: &PlanGraph, fleet: &Fleet, robot: u32) -> u64
    requires state { IsFleetState graph.now fleet.now }
    requires robot { robot < length graph.now.lasts }
    requires going { arrived_count fleet.now robot ≤ last_in graph.now robot }
    ensures { result ≡ start_tick fleet.now robot }
{
    let next = first_to_come(graph, fleet, robot);
    let last = Visit {
        robot,
        index: fleet.arrived(robot),
    };
    let duration = fleet.duration(next);
    match (fleet.release_tick(next), fleet.arrival_tick(last)) {
        (Some(released), Some(arrived)) => {
            let earliest = (released + duration).max(arrived + duration);
            fleet.now().max(earliest)
        }
        _ => fleet.now() + duration,
    }
}

/// The robot on which a path for a robot begins.
fn first_robot(
    graph: &PlanGraph,
    fleet: &Fleet,
    sides: &[Option<Side>],
    robot: u32,
    pairs: &[PairId],
) -> u32
    requires state { IsFleetState graph.now fleet.now }
    requires sides { HasSides graph.now sides.now }
    requires robot { robot < length graph.now.lasts }
    ensures value { result ≡ start_robot graph.now (order_by graph.now fleet.now sides.now) robot pairs.now }
    ensures there { result < length graph.now.lasts }
{
    if pairs.is_empty() {
        return robot;
    }
    match find_edge(graph, fleet, sides, pairs[0]) {
        Some(first) => first.tail.robot,
        None => robot,
    }
}

/// The tick at which a walk ends that is at a visit at a tick, goes by these pairs and ends at the last visit of a robot.
/// The pairs may go round a cycle, so 64 bits are not enough for it; 128 are, since a leg lasts less than 2^53 ticks.
fn walk(
    graph: &PlanGraph,
    fleet: &Fleet,
    sums: &Sums,
    sides: &[Option<Side>],
    robot: u32,
    pairs: &[PairId],
    from: Visit,
    start: u64,
) -> Option<u128>
    requires state { IsFleetState graph.now fleet.now }
    requires sides { HasSides graph.now sides.now }
    requires robot { robot < length graph.now.lasts }
    requires sums { AreSums graph.now fleet.now sums.now }
    requires from { IsVisit graph.now from }
    ensures value { result ≡ walk_end graph.now fleet.now (order_by graph.now fleet.now sides.now) robot from start pairs.now }
    ensures short { IfSome result (λ end. end < 2 ^ 118) }
{
    let _within = graph.robots();
    let mut at = from;
    let mut tick = u128::from(start);
    for q in pairs {
        let Some(next) = find_edge(graph, fleet, sides, *q) else {
            return None;
        };
        if !leads_on(graph, at, next.tail) {
            return None;
        }
        let along = moves(sums, at, next.tail.index);
        let across = fleet.duration(next.head);
        tick += u128::from(along) + u128::from(across);
        at = next.head;
    }
    if at.robot != robot {
        return None;
    }
    Some(tick + u128::from(moves(sums, at, graph.last(robot))))
}

/// The length of a path for a robot, if these pairs are one.
fn length_of(
    graph: &PlanGraph,
    fleet: &Fleet,
    sums: &Sums,
    sides: &[Option<Side>],
    robot: u32,
    pairs: &[PairId],
) -> Option<u128>
    requires state { IsFleetState graph.now fleet.now }
    requires sides { HasSides graph.now sides.now }
    requires robot { robot < length graph.now.lasts }
    requires sums { AreSums graph.now fleet.now sums.now }
    ensures value { result ≡ path_length graph.now fleet.now (order_by graph.now fleet.now sides.now) robot pairs.now }
    ensures short { IfSome result (λ n. n < 2 ^ 118) }
{
    if has_finished(graph, fleet, robot) {
        return finished_length(graph, fleet, robot, pairs);
    }
    let begins = first_robot(graph, fleet, sides, robot, pairs);
    if has_finished(graph, fleet, begins) {
        return None;
    }
    let from = first_to_come(graph, fleet, begins);
    let start = earliest_end(graph, fleet, begins);
    walk(graph, fleet, sums, sides, robot, pairs, from, start)
}

/// The length of a path for a robot that has finished: when it arrived.
fn finished_length(graph: &PlanGraph, fleet: &Fleet, robot: u32, pairs: &[PairId]) -> Option<u128>
    requires state { IsFleetState graph.now fleet.now }
    requires robot { robot < length graph.now.lasts }
    requires finished { has_finished graph.now fleet.now robot ≡ true }
    ensures value { result ≡ finished_length graph.now fleet.now robot pairs.now }
    ensures short { IfSome result (λ n. n < 2 ^ 118) }
{
    if !pairs.is_empty() {
        return None;
    }
    let index = graph.last(robot);
    match fleet.arrival_tick(Visit { robot, index }) {
        Some(tick) => Some(u128::from(tick)),
        None => None,
    }
}

/// The pairs that the paths list for a robot, where the paths of all earlier robots stand before this place, and how many
/// of these paths are taken.
fn pairs_at(paths: &[CertPath], place: usize, robot: u32) -> (&[PairId], usize)
    requires { place ≤ length paths.now }
    ensures { TakesPath paths.now place robot result.0.now result.1 }
{
    if place < paths.len() && paths[place].robot == robot {
        (paths[place].pairs.as_slice(), place + 1)
    } else {
        (&[], place)
    }
}

/// What the lengths of the paths of all robots add up to, if each is one and they name no other robot.
pub(crate) fn total_length(
    graph: &PlanGraph,
    fleet: &Fleet,
    sums: &Sums,
    sides: &[Option<Side>],
    paths: &[CertPath],
) -> Option<u128>
    requires state { IsFleetState graph.now fleet.now }
    requires sides { HasSides graph.now sides.now }
    requires sums { AreSums graph.now fleet.now sums.now }
    requires ascending { IsStrictlyIncreasing (map (λ p. p.robot) paths.now) }
    ensures some { IfSome result (λ total. ArePaths graph.now fleet.now (order_by graph.now fleet.now sides.now) paths.now × (total ≡ total_length graph.now fleet.now (order_by graph.now fleet.now sides.now) paths.now)) }
    ensures none { IfNone result (ArePaths graph.now fleet.now (order_by graph.now fleet.now sides.now) paths.now → ⊥) }
{
    let mut total = 0_u128;
    let mut place = 0;
    for robot in 0..graph.robots() {
        let (pairs, after) = pairs_at(paths, place, robot);
        let Some(length) = length_of(graph, fleet, sums, sides, robot, pairs) else {
            return None;
        };
        total += length;
        place = after;
    }
    if place == paths.len() {
        Some(total)
    } else {
        None
    }
}
