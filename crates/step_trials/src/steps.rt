// Events that make steps: what each releases, and which switches are refused.
ghost use Rattle.std.specs.Prelude.{◌≡◌, ◌<◌, ◌^◌};
ghost use Rattle.fleet_base.specs.State.{IsWindow};
ghost use Rattle.fleet_base.specs.Rules.{IsFleetState};
ghost use Rattle.fleet_core.specs.declared.judging.Judged.TheVariants.{Accept};
ghost use Rattle.fleet_core.specs.Judgement.{judgement_of};

use fleet_base::{Fleet, Report, Visit};
use fleet_core::{ChoiceWhy, Judged, heard, judge};
use plan_graph::PlanGraph;
use plan_scenes::{
    CORRIDOR, CROSSING, Event, Outcome, Texts, arrive, delay, first, first_ahead, step, switching,
    view_of,
};
use release_rule::{Out, releases};
use std::alloc::Global;
use std::process::Abort;
use std::test::Fail;

/// What an accepted report releases, by a view of all pairs.
fn by_view(
    alloc: Global,
    graph: &PlanGraph,
    fleet: &Fleet,
    report: &Report,
) -> Result<Vec<Visit>, Fail>
    requires state { IsFleetState graph.now fleet.now }
    requires accepted { judgement_of fleet.now report.now ≡ Accept }
    requires count { fleet.now.count < 2 ^ 62 }
{
    let next = heard(alloc, fleet, report)?;
    let view = view_of(alloc, graph, &next)?;
    let mut out = Out::new(alloc, graph)?;
    releases(&view, &next, &mut out);
    Ok(Vec::from_slice(alloc, out.list())?)
}

/// What a report releases that must be accepted, by a view of all pairs.
fn seen(
    alloc: Global,
    graph: &PlanGraph,
    fleet: &Fleet,
    report: &Report,
) -> Result<Vec<Visit>, Fail>
    requires { IsFleetState graph.now fleet.now }
{
    if judge(graph, fleet, report) != Judged::Accept || fleet.count() >= 1 << 62 {
        return Err(Fail::from("an accepted report"));
    }
    by_view(alloc, graph, fleet, report)
}

/// Whether these are the visits, by robot and number.
fn are(visits: &[Visit], want: &[(u32, u32)]) -> bool {
    visits.len() == want.len()
        && visits
            .iter()
            .zip(want)
            .all(|(v, at)| (v.robot, v.index) == *at)
}

/// Whether a step releases these visits.
fn are_released(outcome: &Outcome, want: &[(u32, u32)]) -> bool {
    match outcome {
        Outcome::Released(visits) => are(visits, want),
        Outcome::Refused(..) => false,
    }
}

/// A robot's arrival at a visit and its tick, and the visits that it releases.
type Row = ((u64, u64, u64), &'static [(u32, u32)]);

/// A plan that is played where a robot may hold so many releases: what each robot holds at first, and the arrivals.
#[derive(Clone, Copy)]
struct Played {
    texts: Texts<'static>,
    window: u32,
    held: &'static [u32],
    rows: &'static [Row],
}

const THE_WHOLE_CROSSING: Played = Played {
    texts: CROSSING,
    window: 1,
    held: &[1, 0],
    rows: &[
        ((0, 1, 1), &[(0, 2)]),
        ((0, 2, 2), &[(0, 3)]),
        ((0, 3, 3), &[(0, 4), (1, 1)]),
        ((0, 4, 4), &[]),
        ((1, 1, 4), &[(1, 2)]),
        ((1, 2, 5), &[]),
    ],
};

const A_ROBOT_HOLDS_TWO_RELEASES: Played = Played {
    texts: CROSSING,
    window: 2,
    held: &[2, 0],
    rows: &[
        ((0, 1, 1), &[(0, 3)]),
        ((0, 2, 2), &[(0, 4)]),
        ((0, 3, 3), &[(1, 1), (1, 2)]),
    ],
};

const A_ROBOT_HOLDS_THE_WHOLE_WAY: Played = Played {
    texts: CROSSING,
    window: 8,
    held: &[4, 0],
    rows: &[
        ((0, 1, 1), &[]),
        ((0, 2, 2), &[]),
        ((0, 3, 3), &[(1, 1), (1, 2)]),
    ],
};

const ROBOTS_FOLLOW_IN_A_ROW: Played = Played {
    texts: (
        b"type octile\nheight 1\nwidth 4\nmap\n....\n",
        b"Agent 0: (0,0)->(0,1)\nAgent 1: (0,1)->(0,2)\nAgent 2: (0,2)->(0,3)\n",
    ),
    window: 1,
    held: &[0, 0, 1],
    rows: &[
        ((2, 1, 1), &[(1, 1)]),
        ((1, 1, 2), &[(0, 1)]),
        ((0, 1, 2), &[]),
    ],
};

/// The map of the crossing.
const CROSSROADS: &[u8] = b"type octile\nheight 3\nwidth 5\nmap\n@@.@@\n.....\n@@.@@\n";

const A_ROBOT_GOES_TWICE_OVER_ONE_CELL: Played = Played {
    texts: (
        CROSSROADS,
        b"Agent 0: (1,1)->(1,2)->(1,3)->(1,2)->(1,1)\nAgent 1: (0,2)->(0,2)->(0,2)->(0,2)->(1,2)->(2,2)\n",
    ),
    window: 1,
    held: &[1, 0],
    rows: &[
        ((0, 1, 1), &[(0, 2)]),
        ((0, 2, 2), &[(0, 3)]),
        ((0, 3, 3), &[(0, 4)]),
        ((0, 4, 4), &[(1, 1)]),
    ],
};

const A_GOAL_IS_ENTERED_LAST: Played = Played {
    texts: (
        CROSSROADS,
        b"Agent 0: (0,2)->(0,2)->(1,2)\nAgent 1: (1,1)->(1,2)->(1,3)\n",
    ),
    window: 1,
    held: &[0, 1],
    rows: &[((1, 1, 1), &[(1, 2)]), ((1, 2, 2), &[(0, 1)])],
};

const THE_CORRIDOR_IS_LEFT_BEFORE_IT_IS_ENTERED: Played = Played {
    texts: CORRIDOR,
    window: 1,
    held: &[1, 0],
    rows: &[
        ((0, 1, 1), &[(0, 2)]),
        ((0, 2, 2), &[(0, 3)]),
        ((0, 3, 3), &[(0, 4)]),
        ((0, 4, 4), &[(0, 5)]),
        ((0, 5, 5), &[(0, 6)]),
        ((0, 6, 6), &[(0, 7)]),
        ((0, 7, 7), &[(1, 1)]),
    ],
};

const ALL_PLAYED: [Played; 7] = [
    THE_WHOLE_CROSSING,
    A_ROBOT_HOLDS_TWO_RELEASES,
    A_ROBOT_HOLDS_THE_WHOLE_WAY,
    ROBOTS_FOLLOW_IN_A_ROW,
    A_ROBOT_GOES_TWICE_OVER_ONE_CELL,
    A_GOAL_IS_ENTERED_LAST,
    THE_CORRIDOR_IS_LEFT_BEFORE_IT_IS_ENTERED,
];

/// Whether these are the visits up to which the robots are released.
fn hold(fleet: &Fleet, held: &[u32]) -> bool {
    for robot in 0..fleet.robots() {
        if held.get(robot as usize) != Some(&fleet.released(robot)) {
            return false;
        }
    }
    true
}

/// Makes the steps of these arrivals.
fn play(
    rt: &impl Abort,
    alloc: Global,
    graph: &PlanGraph,
    fleet: &mut Fleet,
    rows: &[Row],
) -> Result<(), Fail>
    requires { IsFleetState graph.now fleet.old }
{
    for ((robot, index, tick), want) in rows {
        let event = arrive(*robot, *index, *tick);
        let visits = seen(alloc, graph, fleet, &event.0)?;
        assert!(rt; are(&visits, want), "{event:?}: {visits:?}");
        let outcome = step(alloc, graph, fleet, &event)?;
        assert!(rt; are_released(&outcome, want), "{event:?}: {outcome:?}");
    }
    Ok(())
}

#[test]
fn plans_release_their_visits(rt: HostRuntime) -> Result<(), Fail> {
    for played in ALL_PLAYED {
        if played.window == 0 || played.window > 8 {
            return Err(Fail::from("a window"));
        }
        let (graph, mut fleet) = first_ahead(rt.alloc(), played.texts, played.window)?;
        assert!(rt; hold(&fleet, played.held), "{:?}", played.held);
        play(&rt, rt.alloc(), &graph, &mut fleet, played.rows)?;
    }
    Ok(())
}

/// What two events come to, one after the other.
fn two_events(
    alloc: Global,
    texts: Texts<'_>,
    events: &[Event; 2],
) -> Result<(Outcome, Outcome), Fail> {
    let (graph, mut fleet) = first(alloc, texts)?;
    let outcome = step(alloc, &graph, &mut fleet, &events[0])?;
    let last = step(alloc, &graph, &mut fleet, &events[1])?;
    Ok((outcome, last))
}

/// Whether a switch is refused so.
fn refuses(outcome: &Outcome, pair: u32, why: ChoiceWhy) -> bool {
    match outcome {
        Outcome::Released(_) => false,
        Outcome::Refused(at, reason) => at.0 == pair && *reason == why,
    }
}

#[test]
fn a_closed_pair_is_not_switched(rt: HostRuntime) -> Result<(), Fail> {
    let events = [
        switching(delay(0, 1, 5, 0), 0),
        switching(delay(1, 1, 50, 0), 0),
    ];
    let (switched, refused) = two_events(rt.alloc(), CROSSING, &events)?;
    assert!(rt; are_released(&switched, &[(1, 1)]), "{switched:?}");
    assert!(rt; refuses(&refused, 0, ChoiceWhy::Closed), "{refused:?}");
    Ok(())
}

#[test]
fn an_order_with_a_cycle_is_refused(rt: HostRuntime) -> Result<(), Fail> {
    let events = [
        switching(delay(0, 6, 5, 0), 3),
        switching(delay(0, 6, 5, 0), 0),
    ];
    let (cyclic, closed) = two_events(rt.alloc(), CORRIDOR, &events)?;
    assert!(rt; refuses(&cyclic, 3, ChoiceWhy::Cyclic), "{cyclic:?}");
    assert!(rt; refuses(&closed, 0, ChoiceWhy::Closed), "{closed:?}");
    Ok(())
}
