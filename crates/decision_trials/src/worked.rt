// Schedules that follow decisions on worked states, and a cycle of four robots.
ghost use Rattle.std.specs.Prelude.{◌≡◌, IfOk};
ghost use Rattle.fleet_base.specs.Rules.{IsFleetState};

use crate::comparing::{compare, undecided};
use crate::following::{Calls, NONE_YET, follow};
use fleet_base::{Fleet, PairId, Side};
use longest_path::Live;
use plan_graph::{PlanGraph, is_open};
use plan_scenes::{CORRIDOR, CROSSING, Dice, Event, Texts, after, arrive, delay};
use std::alloc::Global;
use std::test::Fail;

/// A ring of four cells: each robot enters it, goes one cell on, and leaves it.
const RING: Texts<'static> = (
    b"type octile\nheight 6\nwidth 6\nmap\n......\n......\n......\n......\n......\n......\n",
    b"Agent 0: (2,0)->(2,1)->(2,2)->(2,3)->(1,3)->(0,3)\nAgent 1: (2,5)->(2,5)->(2,5)->(2,4)->(2,3)->(3,3)->(4,3)->(5,3)\nAgent 2: (3,5)->(3,5)->(3,5)->(3,5)->(3,5)->(3,4)->(3,3)->(3,2)->(4,2)->(5,2)\nAgent 3: (3,0)->(3,0)->(3,0)->(3,0)->(3,0)->(3,0)->(3,0)->(3,1)->(3,2)->(2,2)->(1,2)->(0,2)\n",
);

/// A report of a robot: the visit, by how much the move there is late, or none if it has arrived, and the tick.
type Told = (u64, u64, Option<u64>, u64);

const LATEST: [Told; 2] = [(0, 2, Some(1_000_000), 0), (1, 1, Some(1_000_000), 7)];

// A pair's head has arrived in the first of these states, and is released late in the second.
const ARRIVED: [Told; 4] = [
    (0, 1, None, 1),
    (0, 2, None, 2),
    (0, 3, None, 3),
    (1, 1, None, 9),
];

const LATE: [Told; 4] = [
    (0, 1, None, 1),
    (0, 2, None, 2),
    (0, 3, None, 1_000_000),
    (1, 2, Some(1_000_000), 1_000_001),
];

const EAST_LATE: [Told; 1] = [(0, 1, Some(5), 0)];

const IN_THE_RING: [Told; 3] = [
    (1, 3, Some(1_000_000), 0),
    (0, 1, None, 4),
    (3, 2, Some(1_000_000), 5),
];

/// The plan and the reports of a state.
fn state(number: u32) -> (Texts<'static>, &'static [Told]) {
    match number {
        0 => (CROSSING, &LATEST),
        1 => (CROSSING, &ARRIVED),
        2 => (CROSSING, &LATE),
        3 => (CORRIDOR, &EAST_LATE),
        4 => (RING, &[]),
        _ => (RING, &IN_THE_RING),
    }
}

fn events_of(alloc: Global, reports: &[Told]) -> Result<Vec<Event>, Fail> {
    let mut events = Vec::new(alloc);
    for (robot, index, late, tick) in reports {
        let event = match late {
            Some(extra) => delay(*robot, *index, *extra, *tick),
            None => arrive(*robot, *index, *tick),
        };
        events.push(event)?;
    }
    Ok(events)
}

fn follow_from(alloc: Global, number: u32, dice: &mut Dice, calls: &mut Calls) -> Result<(), Fail> {
    let (texts, reports) = state(number);
    let events = events_of(alloc, reports)?;
    let (graph, fleet) = after(alloc, texts, 1, &events)?;
    follow(alloc, &graph, &fleet, dice, calls)
}

#[test]
fn schedules_follow_decisions_on_worked_states(rt: HostRuntime) -> Result<(), Fail> {
    let mut dice = Dice { state: 5 };
    let mut calls = NONE_YET;
    for number in 0..6 {
        follow_from(rt.alloc(), number, &mut dice, &mut calls)?;
    }
    assert!(rt; calls.kept > 20);
    assert!(rt; calls.refused > 5);
    assert!(rt; calls.undone > 5);
    Ok(())
}

/// Gives a pair a side, if it is open and has none: whether it took it.
fn decides(
    graph: &PlanGraph,
    fleet: &Fleet,
    live: &mut Live<'_>,
    number: u32,
    side: Side,
) -> Result<bool, Fail>
    requires state { IsFleetState graph.now fleet.now }
    requires graph { live.old.graph ≡ graph.now }
    requires fleet { live.old.state ≡ fleet.now }
    ensures graph { live.new.graph ≡ graph.now }
    ensures fleet { live.new.state ≡ fleet.now }
{
    let q = PairId(number);
    if number < graph.pair_count() && is_open(graph, fleet, q) && live.side(q).is_none() {
        Ok(live.decide(q, side))
    } else {
        Err(Fail::from("a pair with no side"))
    }
}

/// Whether there are so many decisions, and so many were asked for.
fn counts(live: &Live<'_>, depth: u32, asked: u64) -> bool {
    live.depth() == depth && live.asked() == asked
}

/// Four sides of the ring's pairs of which the last closes a cycle of all four robots, and the other side in its place.
const ROUND: [(u32, Side, bool); 5] = [
    (0, Side::Higher, true),
    (2, Side::Higher, true),
    (3, Side::Higher, true),
    (1, Side::Lower, false),
    (1, Side::Higher, true),
];

/// Whether these decisions are answered so. Compares each schedule after them.
fn goes_round(
    alloc: Global,
    graph: &PlanGraph,
    fleet: &Fleet,
    live: &mut Live<'_>,
) -> Result<bool, Fail>
    requires state { IsFleetState graph.now fleet.now }
    requires graph { live.old.graph ≡ graph.now }
    requires fleet { live.old.state ≡ fleet.now }
    ensures graph { live.new.graph ≡ graph.now }
    ensures fleet { live.new.state ≡ fleet.now }
{
    let mut right = true;
    for (number, side, kept) in ROUND {
        right &= decides(graph, fleet, live, number, side)? == kept;
        compare(alloc, graph, fleet, live)?;
    }
    Ok(right)
}

/// Undoes every decision, and compares each schedule after it.
fn go_back(alloc: Global, graph: &PlanGraph, fleet: &Fleet, live: &mut Live<'_>) -> Result<(), Fail>
    requires state { IsFleetState graph.now fleet.now }
    requires graph { live.old.graph ≡ graph.now }
    requires fleet { live.old.state ≡ fleet.now }
{
    while live.depth() > 0 {
        live.undo();
        compare(alloc, graph, fleet, live)?;
    }
    Ok(())
}

/// Whether all goes so round and back.
fn goes_round_and_back(
    alloc: Global,
    graph: &PlanGraph,
    fleet: &Fleet,
    live: &mut Live<'_>,
) -> Result<bool, Fail>
    requires state { IsFleetState graph.now fleet.now }
    requires graph { live.old.graph ≡ graph.now }
    requires fleet { live.old.state ≡ fleet.now }
{
    let round = goes_round(alloc, graph, fleet, live)? && counts(live, 4, 5);
    if round {
        go_back(alloc, graph, fleet, live)?;
    }
    Ok(round && counts(live, 0, 5))
}

/// The ring's graph, and its first state.
fn ring(alloc: Global) -> Result<(PlanGraph, Fleet), Fail>
    ensures { IfOk result (λ made. IsFleetState made.0 made.1) }
{
    after(alloc, RING, 1, &[])
}

#[test]
fn a_cycle_of_four_robots_is_refused(rt: HostRuntime) -> Result<(), Fail> {
    let (graph, fleet) = ring(rt.alloc())?;
    let mut live = undecided(rt.alloc(), &graph, &fleet)?;
    assert!(rt; goes_round_and_back(rt.alloc(), &graph, &fleet, &mut live)?);
    Ok(())
}
