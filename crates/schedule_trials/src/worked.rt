// Least schedules of the crossing and of the corridor: their sums, their paths, and a cycle.
ghost use Rattle.fleet_base.specs.Rules.{IsFleetState};
ghost use Rattle.fleet_base.specs.Schedule.{IsLeastSchedule};
ghost use Rattle.plan_graph.specs.Views.{order_in};
ghost use Rattle.longest_path.specs.Ticks.{IsKeptFor, schedule_in};
ghost use Rattle.longest_path.specs.Closed.{AgreesOnClosed};

use crate::views::{schedules, view_with};
use fleet_base::{Fleet, PairId, PairList, Side};
use longest_path::{Ticks, earliest};
use plan_graph::{Oriented, PlanGraph};
use plan_scenes::{CORRIDOR, CROSSING, Event, Texts, after, arrive, delay};
use std::alloc::Global;
use std::process::Abort;
use std::test::Fail;

/// The sum of the last ticks of the least schedule, and the paths of robots 0 and 1.
fn least(
    alloc: Global,
    graph: &PlanGraph,
    fleet: &Fleet,
    sides: &[(u32, Side)],
) -> Result<(u64, PairList, PairList), Fail>
    requires { IsFleetState graph.now fleet.now }
{
    let view = view_with(alloc, graph, fleet, sides)?;
    let mut ticks = Ticks::new(alloc, graph)?;
    found(alloc, &view, fleet, &mut ticks)
}

fn found(
    alloc: Global,
    view: &Oriented<'_>,
    fleet: &Fleet,
    ticks: &mut Ticks,
) -> Result<(u64, PairList, PairList), Fail>
    requires state { IsFleetState view.now.graph fleet.now }
    requires closed { AgreesOnClosed view.now.graph fleet.now (order_in view.now) }
    requires room { IsKeptFor view.now.graph ticks.old }
{
    match earliest(view, fleet, ticks) {
        Ok(()) => paths(alloc, view, fleet, ticks),
        Err(_) => Err(Fail::from("no cycle")),
    }
}

fn paths(
    alloc: Global,
    view: &Oriented<'_>,
    fleet: &Fleet,
    ticks: &Ticks,
) -> Result<(u64, PairList, PairList), Fail>
    requires state { IsFleetState view.now.graph fleet.now }
    requires closed { AgreesOnClosed view.now.graph fleet.now (order_in view.now) }
    requires room { IsKeptFor view.now.graph ticks.now }
    requires least { IsLeastSchedule view.now.graph fleet.now (order_in view.now) (schedule_in ticks.now) }
{
    if view.graph().robots() < 2 {
        return Err(Fail::from("two robots"));
    }
    let first = ticks.tight_path(alloc, view, fleet, 0)?;
    let second = ticks.tight_path(alloc, view, fleet, 1)?;
    Ok((ticks.end_sum(), first, second))
}

/// The lower side for each open pair of the corridor.
const ALL_LOWER: [(u32, Side); 5] = [
    (1, Side::Lower),
    (2, Side::Lower),
    (3, Side::Lower),
    (4, Side::Lower),
    (5, Side::Lower),
];

/// A plan, events and sides of open pairs; and the sum and the two paths of the least schedule then.
type Row<'a> = (
    Texts<'static>,
    &'a [Event],
    &'a [(u32, Side)],
    u64,
    &'a [PairId],
    &'a [PairId],
);

/// Makes the least schedule of each row, and compares.
fn compare(rt: &impl Abort, alloc: Global, rows: &[Row<'_>]) -> Result<(), Fail> {
    for (number, row) in rows.iter().enumerate() {
        assert!(rt; holds(alloc, row)?, "row {number}");
    }
    Ok(())
}

/// Whether a row's sum and paths are those of the least schedule.
fn holds(alloc: Global, row: &Row<'_>) -> Result<bool, Fail> {
    let (graph, fleet) = after(alloc, row.0, 1, row.1)?;
    let found = least(alloc, &graph, &fleet, row.2)?;
    Ok(found.0 == row.3 && found.1.as_slice() == row.4 && found.2.as_slice() == row.5)
}

const LOWER: [(u32, Side); 1] = [(0, Side::Lower)];

const HIGHER: [(u32, Side); 1] = [(0, Side::Higher)];

const BY_PAIR: [PairId; 1] = [PairId(0)];

const LAST_PAIR: [PairId; 1] = [PairId(5)];

#[test]
fn sides_have_these_sums_and_paths(rt: HostRuntime) -> Result<(), Fail> {
    let east = [delay(0, 1, 5, 0)];
    let south = [delay(1, 1, 1, 0)];
    let rows: [Row<'_>; 7] = [
        (CROSSING, &east, &LOWER, 19, &[], &BY_PAIR),
        (CROSSING, &east, &HIGHER, 11, &[], &[]),
        (CROSSING, &east, &[], 11, &[], &[]),
        (CROSSING, &south, &LOWER, 10, &[], &BY_PAIR),
        (CROSSING, &south, &HIGHER, 9, &BY_PAIR, &[]),
        (CROSSING, &south, &[], 7, &[], &[]),
        (CORRIDOR, &east, &ALL_LOWER, 31, &[], &LAST_PAIR),
    ];
    compare(&rt, rt.alloc(), &rows)
}

#[test]
fn robots_under_way_have_these_sums_and_paths(rt: HostRuntime) -> Result<(), Fail> {
    let east_done = [
        arrive(0, 1, 1),
        arrive(0, 2, 2),
        arrive(0, 3, 3),
        arrive(0, 4, 4),
    ];
    // A robot is under way, and the moment, its release, or its release at its last arrival decides when its move can end.
    let by_the_moment = [delay(1, 1, 3, 10)];
    let by_the_release = [
        delay(1, 1, 5, 0),
        arrive(0, 1, 1),
        arrive(0, 2, 2),
        arrive(0, 3, 3),
    ];
    let at_the_arrival = [arrive(0, 1, 1), delay(0, 2, 4, 1)];
    let rows: [Row<'_>; 4] = [
        (CROSSING, &east_done, &[], 9, &[], &[]),
        (CROSSING, &by_the_moment, &[], 28, &[], &[]),
        (CROSSING, &by_the_release, &[], 14, &[], &[]),
        (CROSSING, &at_the_arrival, &[], 17, &[], &BY_PAIR),
    ];
    compare(&rt, rt.alloc(), &rows)
}

#[test]
fn a_move_begins_after_the_arrival_before_it(rt: HostRuntime) -> Result<(), Fail> {
    // Robot 0 was told its visit 2 at the start, and is at its visit 1 only ten ticks later.
    let events = [arrive(0, 1, 10), delay(0, 2, 4, 10)];
    let (graph, fleet) = after(rt.alloc(), CROSSING, 2, &events)?;
    let found = least(rt.alloc(), &graph, &fleet, &[])?;
    assert_eq!(rt; found.0, 35);
    assert_eq!(rt; found.1.as_slice(), [].as_slice());
    assert_eq!(rt; found.2.as_slice(), [PairId(0)].as_slice());
    Ok(())
}

/// The pairs of the cycle that the schedule of a view has.
fn cycle(
    alloc: Global,
    graph: &PlanGraph,
    fleet: &Fleet,
    sides: &[(u32, Side)],
) -> Result<PairList, Fail>
    requires { IsFleetState graph.now fleet.now }
{
    let view = view_with(alloc, graph, fleet, sides)?;
    let mut ticks = Ticks::new(alloc, graph)?;
    if schedules(&view, fleet, &mut ticks) {
        return Err(Fail::from("a cycle"));
    }
    Ok(PairList::from_slice(alloc, ticks.cycle())?)
}

#[test]
fn two_sides_close_a_cycle(rt: HostRuntime) -> Result<(), Fail> {
    let (graph, fleet) = after(rt.alloc(), CORRIDOR, 1, &[delay(0, 1, 5, 0)])?;
    let found = cycle(rt.alloc(), &graph, &fleet, &[(1, Side::Higher)])?;
    assert_eq!(rt; found.as_slice(), [PairId(0), PairId(1)].as_slice());
    Ok(())
}
