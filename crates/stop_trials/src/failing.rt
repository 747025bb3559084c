// Calls of the outside that fail, each once: the status, what was said before, and what the next session knows.
use crate::knowing::{LEFT, assert_ends, assert_keeps};
use station_api::{MemSource, MemStation};
use std::alloc::Global;
use std::process::Abort;
use std::test::Fail;
use trial_base::{
    CROSSING, Script, WHOLE_PLAN, WITH_DELAYS, end_of, joined, play, sent_behind, shelf_of,
    station_of,
};

const RUN: &[&str] = &["run", "M", "P", "J"];

/// The session of a script ends in the call of the station that fails. The journal is opened again, also after each stop that
/// may follow, and the robots go on to their last visits.
fn assert_breaks_off(
    rt: &impl Abort,
    alloc: Global,
    script: &Script,
    call: u64,
) -> Result<(), Fail> {
    let mut station = station_of(alloc, &[call])?;
    station.take_at_most(11);
    assert_eq!(rt; play(alloc, script, script.reports.len(), &mut station)?, 6);
    assert_eq!(rt; station.calls(), call);
    let said = sent_behind(alloc, &station, 0)?;
    for (kept, fill) in LEFT {
        let mut left = station.stopped(alloc, call, kept, fill)?;
        assert_keeps(rt, alloc, script, &said, &mut left)?;
    }
    assert_keeps(rt, alloc, script, &said, &mut station)?;
    assert_ends(rt, alloc, script, &mut station)
}

/// How many calls of the station the session of a script makes.
fn calls_of(alloc: Global, script: &Script) -> Result<u64, Fail> {
    let mut station = station_of(alloc, &[])?;
    station.take_at_most(11);
    play(alloc, script, script.reports.len(), &mut station)?;
    Ok(station.calls())
}

#[test]
fn each_call_of_the_station_may_fail(rt: HostRuntime) -> Result<(), Fail> {
    for script in [&WHOLE_PLAN, &WITH_DELAYS] {
        for call in 1..=calls_of(rt.alloc(), script)? {
            assert_breaks_off(&rt, rt.alloc(), script, call)?;
        }
    }
    Ok(())
}

/// How a first session ends, and what it has sent; shelf, source and station fail at these calls.
fn end_with(
    alloc: Global,
    reports: &[u8],
    failing: (&[u64], &[u64], &[u64]),
) -> Result<(u8, MemStation), Fail> {
    let mut shelf = shelf_of(alloc, CROSSING, failing.0)?;
    let mut source = MemSource::new(alloc, reports.to_vec(alloc)?, failing.1.to_vec(alloc)?);
    let mut station = station_of(alloc, failing.2)?;
    let code = end_of(alloc, RUN, &mut shelf, &mut source, &mut station)?;
    Ok((code, station))
}

/// A session ends with this status, and what it has sent ends with a fault's line; and then the same where the station fails
/// to send the line.
fn assert_faults(
    rt: &impl Abort,
    alloc: Global,
    reports: &[u8],
    failing: (&[u64], &[u64]),
    said: &[u8],
    line: &[u8],
) -> Result<(), Fail> {
    let (code, station) = end_with(alloc, reports, (failing.0, failing.1, &[]))?;
    assert_eq!(rt; code, 5);
    assert_eq!(rt;
        sent_behind(alloc, &station, 0)?,
        joined(alloc, &[said, line])?
    );
    let call = [station.calls()];
    let (code, station) = end_with(alloc, reports, (failing.0, failing.1, &call))?;
    assert_eq!(rt; code, 6);
    assert_eq!(rt; sent_behind(alloc, &station, 0)?.as_slice(), said);
    Ok(())
}

#[test]
fn each_call_of_the_shelf_may_fail(rt: HostRuntime) -> Result<(), Fail> {
    let rows: [(&[u64], &[u8]); 3] = [
        (&[1], b"fault read map\n"),
        (&[2], b"fault read plan\n"),
        (&[1, 2], b"fault read map\n"),
    ];
    for (calls, line) in rows {
        assert_faults(&rt, rt.alloc(), b"arrive 0 1 1\n", (calls, &[]), b"", line)?;
    }
    Ok(())
}

/// The reports of a script, each with a line of `x` behind it that fills up the 512 bytes of a read.
fn padded(alloc: Global, script: &Script) -> Result<Vec<u8>, Fail> {
    let mut whole = Vec::new(alloc);
    for report in script.reports {
        whole.extend_from_slice(report)?;
        for _ in report.len()..511 {
            whole.push(b'x')?;
        }
        whole.push(b'\n')?;
    }
    Ok(whole)
}

/// What the session says of so many of them.
fn answers_to(alloc: Global, script: &Script, count: usize) -> Result<Vec<u8>, Fail> {
    let mut whole = joined(alloc, script.greetings.get(..1).ok_or("a greeting")?)?;
    for answer in script.answers.iter().take(count) {
        whole.extend_from_slice(answer)?;
        whole.extend_from_slice(b"refused line\n")?;
    }
    Ok(whole)
}

#[test]
fn each_read_of_the_reports_may_fail(rt: HostRuntime) -> Result<(), Fail> {
    for script in [&WHOLE_PLAN, &WITH_DELAYS] {
        let reports = padded(rt.alloc(), script)?;
        let mut call = 0;
        for count in 0..=script.reports.len() {
            call = u64::wrapping_add(call, 1);
            let said = answers_to(rt.alloc(), script, count)?;
            let line = b"fault read reports\n";
            assert_faults(&rt, rt.alloc(), &reports, (&[], &[call]), &said, line)?;
        }
    }
    Ok(())
}
