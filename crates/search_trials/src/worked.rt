// Worked delays: what the search answers, and the exact text of its certificate.
use crate::answers::ask;
use crate::states::delayed;
use fleet_base::{PairId, Report};
use plan_scenes::{CORRIDOR, CROSSING, Event, Texts};
use std::alloc::Global;
use std::process::Abort;
use std::test::Fail;

/// A robot's goal lies on the way of another one, which goes through it first.
const GOALS: Texts<'static> = (
    b"type octile\nheight 3\nwidth 5\nmap\n@@.@@\n.....\n@@.@@\n",
    b"Agent 0: (0,2)->(0,2)->(1,2)\nAgent 1: (1,1)->(1,2)->(1,3)\n",
);

const BOUND: &[u8] = b"cert bound\n";

const OPEN: &[u8] = b"cert open 7\n";

const BOTH_SIDES: &[u8] =
    b"cert branch 0\ncert bound\ncert path 1 1 0\ncert bound\ncert path 0 1 0\n";

const FORCED: &[u8] =
    b"cert force 1 lower 2 0 1\ncert force 2 lower 2 1 2\ncert force 3 lower 2 2 3\ncert force 4 lower 2 3 4\ncert force 5 lower 2 4 5\ncert bound\ncert path 1 1 5\n";

const EAST_BEFORE: &[u8] = b"cert bound\ncert path 0 1 0\n";

/// A late robot for which the pair was switched.
const SWITCHED: [Event; 1] = [(
    Report::Delay {
        robot: 0,
        index: 1,
        extra: 5,
        tick: 0,
    },
    Some(PairId(0)),
)];

/// What is answered: the cost, what is left, the switched pairs, and the certificate.
type Want = (u64, Option<u64>, &'static [u32], &'static [u8]);

/// A plan, events, the robot and the visit that are late then and by how much, the budget, and what is answered.
type Row = (Texts<'static>, &'static [Event], (u64, u64, u64), u64, Want);

fn row(number: u32) -> Row {
    match number {
        0 => (CROSSING, &[], (0, 1, 5), 128, (11, None, &[0], BOUND)),
        1 => (CROSSING, &[], (0, 1, 5), 0, (11, None, &[0], BOUND)),
        2 => (CROSSING, &[], (1, 1, 1), 128, (9, None, &[0], BOTH_SIDES)),
        3 => (CROSSING, &[], (1, 1, 1), 1, (9, None, &[0], BOTH_SIDES)),
        4 => (CROSSING, &[], (1, 1, 1), 0, (10, Some(7), &[], OPEN)),
        5 => (
            CROSSING,
            &SWITCHED,
            (1, 1, 50),
            128,
            (107, None, &[], EAST_BEFORE),
        ),
        6 => (CORRIDOR, &[], (0, 1, 5), 128, (31, None, &[], FORCED)),
        7 => (CORRIDOR, &[], (0, 1, 5), 0, (31, None, &[], FORCED)),
        8 => (GOALS, &[], (1, 1, 5), 128, (15, None, &[], EAST_BEFORE)),
        _ => (GOALS, &[], (1, 1, 5), 0, (15, None, &[], EAST_BEFORE)),
    }
}

/// Searches after the delay of a row, and compares.
fn compare(rt: &impl Abort, alloc: Global, number: u32) -> Result<(), Fail> {
    let (texts, events, (robot, index, extra), budget, want) = row(number);
    let late = Report::Delay {
        robot,
        index,
        extra,
        tick: 0,
    };
    let (graph, fleet) = delayed(alloc, texts, events, late)?;
    let found = ask(alloc, &graph, &fleet, budget)?;
    assert_eq!(rt; (found.cost, found.least), (want.0, want.1), "row {number}");
    assert_eq!(rt; found.switched.as_slice(), want.2, "row {number}");
    assert_eq!(rt; found.text.as_slice(), want.3, "row {number}");
    Ok(())
}

#[test]
fn delays_are_answered_so(rt: HostRuntime) -> Result<(), Fail> {
    for number in 0..10 {
        compare(&rt, rt.alloc(), number)?;
    }
    Ok(())
}
