// Stops: what they leave of a report, and what the next session makes of it.
use crate::knowing::{LEFT, assert_ends, assert_keeps};
use station_api::MemStation;
use std::alloc::Global;
use std::process::Abort;
use std::test::Fail;
use trial_base::{
    CROSSING, Script, WHOLE_PLAN, WITH_DELAYS, next_session, play, sent_behind, side_a, station_of,
};

/// A stop in the turn of a report: how many of the turn's five calls are made (the frame's body is written and synced, its
/// gate is written and synced, and the answer is sent); how many of the bytes that are not synced are kept, and what the
/// others hold. And then the gate that is left, and whether the next session knows the report.
type Stop = (u64, (u64, u8), u8, bool);

const STOPS: [Stop; 12] = [
    (0, (0, 0), 0, false),
    (1, (0, 0), 0, false),
    (1, (0, 255), 0, false),
    (1, (7, 1), 0, false),
    (2, (0, 1), 0, false),
    (3, (0, 0), 0, false),
    (3, (0, 7), 7, false),
    (3, (0, 255), 255, false),
    (3, (0, 1), 1, true),
    (3, (1, 7), 1, true),
    (4, (0, 7), 1, true),
    (5, (0, 7), 1, true),
];

/// The gate of the first entry, and how long side A is.
fn gate_of(alloc: Global, station: &MemStation) -> Result<(Option<u8>, usize), Fail> {
    let side = side_a(alloc, station)?;
    Ok((side.get(164).copied(), side.len()))
}

/// The first session of a script that hears one report alone is stopped, and the next one is opened.
fn assert_stops(
    rt: &impl Abort,
    alloc: Global,
    script: &Script,
    length: usize,
    stop: &Stop,
) -> Result<(), Fail> {
    let (made, hold, gate, known) = *stop;
    let mut station = station_of(alloc, &[])?;
    play(alloc, script, 1, &mut station)?;
    let calls = station.calls().saturating_sub(5).saturating_add(made);
    let mut left = station.stopped(alloc, calls, hold.0, hold.1)?;
    let stands = if made == 0 { 165 } else { length };
    assert_eq!(rt; gate_of(alloc, &left)?, (Some(gate), stands));
    if made < 5 {
        assert_eq!(rt;
            Some(&sent_behind(alloc, &left, 0)?.as_slice()),
            script.greetings.first()
        );
    }
    let greeting = next_session(alloc, CROSSING, b"", &mut left)?;
    assert_eq!(rt;
        Some(&greeting.as_slice()),
        script.greetings.get(usize::from(known))
    );
    let keeps = if known { length } else { 165 };
    assert_eq!(rt; gate_of(alloc, &left)?, (Some(gate), keeps));
    Ok(())
}

#[test]
fn a_stop_leaves_a_report_or_none_of_it(rt: HostRuntime) -> Result<(), Fail> {
    for (script, length) in [(&WHOLE_PLAN, 187), (&WITH_DELAYS, 199)] {
        for stop in &STOPS {
            assert_stops(&rt, rt.alloc(), script, length, stop)?;
        }
    }
    Ok(())
}

/// All stops after so many calls of the session of a script.
fn assert_lives_on(
    rt: &impl Abort,
    alloc: Global,
    script: &Script,
    whole: &MemStation,
    calls: u64,
) -> Result<(), Fail> {
    for (kept, fill) in LEFT {
        let mut left = whole.stopped(alloc, calls, kept, fill)?;
        let said = sent_behind(alloc, &left, 0)?;
        assert_keeps(rt, alloc, script, &said, &mut left)?;
        assert_ends(rt, alloc, script, &mut left)?;
    }
    Ok(())
}

#[test]
fn a_session_may_stop_at_each_call(rt: HostRuntime) -> Result<(), Fail> {
    for (script, most) in [(&WHOLE_PLAN, 11), (&WITH_DELAYS, u64::MAX)] {
        let mut whole = station_of(rt.alloc(), &[])?;
        whole.take_at_most(most.max(1));
        play(rt.alloc(), script, script.reports.len(), &mut whole)?;
        for calls in 0..=whole.calls() {
            assert_lives_on(&rt, rt.alloc(), script, &whole, calls)?;
        }
    }
    Ok(())
}
