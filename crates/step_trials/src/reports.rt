// How reports are judged, and what they change.
ghost use Rattle.fleet_base.specs.State.{IsWindow};
ghost use Rattle.fleet_base.specs.Rules.{IsFleetState};

use fleet_base::{Fleet, Report, Visit, Why};
use fleet_core::{Judged, heard, judge};
use plan_graph::PlanGraph;
use plan_scenes::{CROSSING, Event, arrive, delay, first, first_ahead};
use std::alloc::Global;
use std::test::Fail;

const LATEST: u64 = 1_000_000_000_000;

/// How a report is judged at first on the crossing, where a robot may hold so many releases.
fn judged(alloc: Global, window: u32, event: &Event) -> Result<Judged, Fail>
    requires { IsWindow window }
{
    let (graph, fleet) = first_ahead(alloc, CROSSING, window)?;
    Ok(judge(&graph, &fleet, &event.0))
}

#[test]
fn reports_are_judged(rt: HostRuntime) -> Result<(), Fail> {
    let rows = [
        (arrive(0, 1, LATEST), Judged::Accept),
        (arrive(0, 1, LATEST + 1), Judged::Refused(Why::Tick)),
        (arrive(0, 2, 1), Judged::Refused(Why::Unreleased)),
        (arrive(7, 1, 1), Judged::Refused(Why::Robot)),
        (arrive(0, 5, 1), Judged::Refused(Why::Index)),
        (arrive(0, 0, LATEST + 1), Judged::Known),
        (delay(1, 1, 1_000_000, 0), Judged::Accept),
        (delay(1, 1, 1_000_001, 0), Judged::Refused(Why::Size)),
        (delay(0, 0, 0, 0), Judged::Refused(Why::Arrived)),
        (delay(1, 1, 0, LATEST + 1), Judged::Known),
        (delay(1, 3, 1, 0), Judged::Refused(Why::Index)),
    ];
    for (event, want) in rows {
        assert_eq!(rt; judged(rt.alloc(), 1, &event)?, want);
    }
    Ok(())
}

#[test]
fn no_arrival_leaves_out_a_visit(rt: HostRuntime) -> Result<(), Fail> {
    let gap = Judged::Refused(Why::Gap);
    assert_eq!(rt; judged(rt.alloc(), 2, &arrive(0, 2, 2))?, gap);
    assert_eq!(rt; judged(rt.alloc(), 8, &arrive(0, 4, 4))?, gap);
    Ok(())
}

/// The fleet with a report applied that must be accepted.
fn heard_by(
    alloc: Global,
    graph: &PlanGraph,
    fleet: &Fleet,
    report: &Report,
) -> Result<Fleet, Fail> {
    match judge(graph, fleet, report) {
        Judged::Accept if fleet.count() < 1 << 62 => Ok(heard(alloc, fleet, report)?),
        _ => Err(Fail::from("an accepted report")),
    }
}

/// Count and moment after a report, and the tick of robot 0's arrival at visit 1.
fn changed(alloc: Global, event: &Event) -> Result<(u64, u64, Option<u64>), Fail> {
    let (graph, fleet) = first(alloc, CROSSING)?;
    let fleet = heard_by(alloc, &graph, &fleet, &event.0)?;
    let visit = Visit { robot: 0, index: 1 };
    Ok((fleet.count(), fleet.now(), fleet.arrival_tick(visit)))
}

#[test]
fn accepted_reports_change_the_fleet(rt: HostRuntime) -> Result<(), Fail> {
    assert_eq!(rt; changed(rt.alloc(), &arrive(0, 1, 3))?, (1, 3, Some(3)));
    assert_eq!(rt; changed(rt.alloc(), &delay(1, 1, 5, 4))?, (1, 4, None));
    Ok(())
}
