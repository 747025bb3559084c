// Lives: sessions over one journal, each ended or stopped at any moment, beside robots that go on all that was ever sent.
use crate::dice::Dice;
use crate::world::{Trial, World};
use fleet_base::{Cell, Why};
use report_text::Answer;
use station_api::MemStation;
use std::alloc::Global;
use std::process::Abort;
use std::test::Fail;
use trial_base::{
    CORRIDOR, CROSSING, ROW, answers_in, kept_by, sent_behind, session_with, station_of,
};

/// How many sessions a life has before the last one, and how many events a session has at most.
const SESSIONS: u32 = 5;

const EVENTS: u32 = 60;

/// What the searches of a session may be set to.
const BUDGETS: [&str; 4] = ["0", "1", "2", "4096"];

/// How many rounds the last session may have, in each of which every robot may arrive at one more visit.
const ROUNDS: u32 = 40;

/// How many reports are kept: those that were answered ok at least, and besides at most the one in whose turn a stop came.
#[derive(Clone, Copy)]
struct Kept {
    least: u64,
    most: u64,
}

/// A life so far: its robots, its dice, how many bytes its answer line takes at a time, the budget of its session's searches,
/// what is kept, and how often a stop left a report kept that was not answered.
#[derive(Drop)]
struct Life {
    trial: Trial,
    world: World,
    dice: Dice,
    most: u64,
    budget: &'static str,
    kept: Kept,
    unanswered: u32,
}

fn life_of(alloc: Global, trial: &Trial, state: u64) -> Result<Life, Fail> {
    let mut dice = Dice { state };
    let most = dice.roll(20).saturating_add(1);
    Ok(Life {
        trial: *trial,
        world: World::new(alloc, trial)?,
        dice,
        most,
        budget: "0",
        kept: Kept { least: 0, most: 0 },
        unanswered: 0,
    })
}

/// What a session leaves that begins on this station and hears these reports.
fn played(
    alloc: Global,
    life: &Life,
    began: &MemStation,
    reports: &[u8],
) -> Result<MemStation, Fail> {
    let mut station = began.stopped(alloc, u64::MAX, u64::MAX, 0)?;
    station.take_at_most(life.most.max(1));
    let options = ["--budget", life.budget];
    match session_with(alloc, life.trial.texts, &options, reports, &mut station)? {
        0 => Ok(station),
        _ => Err(Fail::from("a session that ends well")),
    }
}

/// A session has been greeted: it knows what it must.
fn note_greeting(rt: &impl Abort, life: &mut Life, said: &[Answer]) -> Result<(), Fail> {
    let Some(Answer::Ready { count }) = said.first() else {
        return Err(Fail::from("a greeting"));
    };
    assert!(rt; life.kept.least <= *count && *count <= life.kept.most);
    if *count > life.kept.least {
        life.unanswered = life.unanswered.saturating_add(1);
    }
    life.kept = Kept {
        least: *count,
        most: *count,
    };
    Ok(())
}

/// A stop after some call behind the first ones.
fn stop(
    alloc: Global,
    dice: &mut Dice,
    whole: &MemStation,
    first: u64,
) -> Result<MemStation, Fail> {
    let more = whole.calls().saturating_sub(first).saturating_add(1);
    let calls = first.saturating_add(dice.roll(more));
    let kept = [u64::MAX, 0, 1, 2].get(dice.roll(4) as usize).copied();
    let fill = [0, 1, 7, 255].get(dice.roll(4) as usize).copied();
    Ok(whole.stopped(alloc, calls, kept.unwrap_or(0), fill.unwrap_or(0))?)
}

/// The next session has another budget.
fn set_budget(life: &mut Life) {
    let place = life.dice.roll(4) as usize;
    life.budget = BUDGETS.get(place).copied().unwrap_or("0");
}

/// The number of some robot.
fn some_robot(life: &mut Life) -> u32 {
    let robots = u64::from(life.world.len());
    life.dice.roll(robots).min(255) as u32
}

/// Something happens beside a session that has sent this.
fn happen(alloc: Global, life: &mut Life, sent: &[u8]) -> Result<(), Fail> {
    let number = some_robot(life);
    match life.dice.roll(4) {
        0 | 1 => life.world.begin(number),
        2 => life.world.arrive(number),
        _ => {
            let length = life.dice.roll((sent.len() as u64).saturating_add(1)) as usize;
            life.world
                .hear(alloc, sent.get(..length).ok_or("a front")?)?;
        }
    }
    Ok(())
}

/// A report: its line, the robot, and whether it is an arrival.
#[derive(Drop)]
struct Report {
    line: String,
    robot: u32,
    is_arrival: bool,
}

/// A report of some robot, if that has one.
fn next_report(alloc: Global, life: &mut Life) -> Result<Option<Report>, Fail> {
    let robot = some_robot(life);
    let is_arrival = life.dice.roll(4) > 0;
    let line = if is_arrival {
        life.world.arrival(alloc, robot)?
    } else {
        let ahead = u32::try_from(life.dice.roll(3)).ok().unwrap_or(0);
        let extra = life.dice.roll(9);
        life.world.delay(alloc, robot, ahead, extra)?
    };
    match line {
        Some(line) => Ok(Some(Report {
            line,
            robot,
            is_arrival,
        })),
        None => Ok(None),
    }
}

/// Whether a true report may be answered so: an arrival is accepted or known, and a delay may also come too late.
fn is_fair(answer: Option<&Answer>, is_arrival: bool) -> bool {
    match answer {
        Some(Answer::Done { .. } | Answer::Known) => true,
        Some(Answer::Refused(Why::Arrived)) => !is_arrival,
        _ => false,
    }
}

/// What a session says that began behind so many bytes.
fn said_behind(alloc: Global, station: &MemStation, front: usize) -> Result<Vec<Answer>, Fail> {
    answers_in(alloc, &sent_behind(alloc, station, front)?)
}

/// A report has had its turn in a session that said so much before a stop, and would have said all of this without it.
fn note_turn(life: &mut Life, report: &Report, said: &[Answer], all: &[Answer]) {
    life.kept = Kept {
        least: kept_by(said).unwrap_or(0),
        most: kept_by(all).unwrap_or(0),
    };
    if report.is_arrival && said.len() == all.len() {
        life.world.note_answer(report.robot);
    }
}

/// A robot reports to a session that began on this station and has left another one, if it has something to report. A stop
/// may come in the report's turn: what it leaves.
fn tell(
    rt: &impl Abort,
    alloc: Global,
    life: &mut Life,
    began: &MemStation,
    reports: &mut Vec<u8>,
    now: &mut MemStation,
) -> Result<Option<MemStation>, Fail> {
    let Some(report) = next_report(alloc, life)? else {
        return Ok(None);
    };
    let front = began.sent().len();
    let calls = now.calls();
    reports.extend_from_slice(report.line.as_bytes())?;
    *now = played(alloc, life, began, reports)?;
    let all = said_behind(alloc, now, front)?;
    assert!(rt; is_fair(all.last(), report.is_arrival));
    if life.dice.roll(8) > 0 {
        note_turn(life, &report, &all, &all);
        return Ok(None);
    }
    let left = stop(alloc, &mut life.dice, now, calls)?;
    note_turn(life, &report, &said_behind(alloc, &left, front)?, &all);
    life.world.hear(alloc, &sent_behind(alloc, &left, front)?)?;
    Ok(Some(left))
}

/// One session of a life that begins on this station, up to its end or a stop: what it leaves.
fn live_on(
    rt: &impl Abort,
    alloc: Global,
    life: &mut Life,
    began: &MemStation,
) -> Result<MemStation, Fail> {
    let front = began.sent().len();
    let mut reports = Vec::new(alloc);
    set_budget(life);
    let mut now = played(alloc, life, began, &reports)?;
    note_greeting(rt, life, &said_behind(alloc, &now, front)?)?;
    if life.dice.roll(6) == 0 {
        return stop(alloc, &mut life.dice, &now, 0);
    }
    for _ in 0..EVENTS {
        happen(alloc, life, &sent_behind(alloc, &now, front)?)?;
        assert!(rt; !life.world.collides(alloc)?);
        if life.dice.roll(2) > 0
            && let Some(left) = tell(rt, alloc, life, began, &mut reports, &mut now)?
        {
            return Ok(left);
        }
    }
    Ok(now)
}

/// The last session of a life, which no stop ends: it brings all robots to their last visits.
fn live_out(
    rt: &impl Abort,
    alloc: Global,
    life: &mut Life,
    began: &MemStation,
) -> Result<(), Fail> {
    let front = began.sent().len();
    let mut reports = Vec::new(alloc);
    let mut now = played(alloc, life, began, &reports)?;
    note_greeting(rt, life, &said_behind(alloc, &now, front)?)?;
    for _ in 0..ROUNDS {
        for number in 0..life.world.len() {
            life.world.hear(alloc, &sent_behind(alloc, &now, front)?)?;
            life.world.begin(number);
            assert!(rt; !life.world.collides(alloc)?);
            life.world.arrive(number);
            if let Some(line) = life.world.arrival(alloc, number)? {
                reports.extend_from_slice(line.as_bytes())?;
                now = played(alloc, life, began, &reports)?;
                assert!(rt; is_fair(said_behind(alloc, &now, front)?.last(), true));
                life.world.note_answer(number);
            }
        }
    }
    assert!(rt; life.world.is_over());
    let front = now.sent().len();
    let last = played(alloc, life, &now, b"")?;
    assert_eq!(rt; said_behind(alloc, &last, front)?.len(), 1);
    Ok(())
}

/// A whole life: how often a stop left a report kept that was not answered.
fn live(rt: &impl Abort, alloc: Global, trial: &Trial, state: u64) -> Result<u32, Fail> {
    let mut life = life_of(alloc, trial, state)?;
    let mut station = station_of(alloc, &[])?;
    for _ in 0..SESSIONS {
        station = live_on(rt, alloc, &mut life, &station)?;
    }
    live_out(rt, alloc, &mut life, &station)?;
    Ok(life.unanswered)
}

const TRIALS: [Trial; 3] = [
    Trial {
        texts: CROSSING,
        robots: &[(Cell { row: 1, col: 0 }, 4), (Cell { row: 0, col: 2 }, 2)],
    },
    Trial {
        texts: CORRIDOR,
        robots: &[(Cell { row: 0, col: 0 }, 7), (Cell { row: 0, col: 5 }, 7)],
    },
    Trial {
        texts: ROW,
        robots: &[
            (Cell { row: 0, col: 2 }, 3),
            (Cell { row: 0, col: 1 }, 3),
            (Cell { row: 0, col: 0 }, 3),
        ],
    },
];

#[test]
fn robots_never_meet_in_any_life(rt: HostRuntime) -> Result<(), Fail> {
    for trial in &TRIALS {
        let mut unanswered: u32 = 0;
        for state in 0..8 {
            let found = live(&rt, rt.alloc(), trial, state)?;
            unanswered = unanswered.saturating_add(found);
        }
        assert!(rt; unanswered > 0);
    }
    Ok(())
}
