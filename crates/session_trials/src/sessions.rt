// Sessions that end well, one after another over one journal, and what they keep in it.
use std::alloc::Global;
use std::process::Abort;
use std::test::Fail;
use trial_base::{
    CROSSING, Script, WHOLE_PLAN, WITH_DELAYS, joined, next_session, side_a, side_b, station_of,
};

/// A session that hears the first reports of a script, one that hears the others, and one that hears none.
fn assert_goes_on(
    rt: &impl Abort,
    alloc: Global,
    script: &Script,
    first: usize,
) -> Result<(), Fail> {
    let (before, after) = script.reports.split_at_checked(first).ok_or("reports")?;
    let mut station = station_of(alloc, &[])?;
    next_session(alloc, CROSSING, &joined(alloc, before)?, &mut station)?;
    let sent = next_session(alloc, CROSSING, &joined(alloc, after)?, &mut station)?;
    let greeting = script.greetings.get(first).ok_or("a greeting")?;
    let answers = joined(alloc, script.answers.get(first..).ok_or("answers")?)?;
    assert_eq!(rt; sent, joined(alloc, &[greeting, &answers])?);
    let last = next_session(alloc, CROSSING, b"", &mut station)?;
    assert_eq!(rt; Some(&last.as_slice()), script.greetings.last());
    Ok(())
}

#[test]
fn the_next_session_goes_on(rt: HostRuntime) -> Result<(), Fail> {
    for script in [&WHOLE_PLAN, &WITH_DELAYS] {
        for first in 0..=script.reports.len() {
            assert_goes_on(&rt, rt.alloc(), script, first)?;
        }
    }
    Ok(())
}

/// Reports over the crossing, and what side A holds from the gate of the first entry on.
const KEPT: [(&[u8], &[u8]); 7] = [
    (b"", b"\0"),
    (b"arrive 0 2 1\nabc\narrive 0 1 1", b"\0"),
    (
        b"arrive 0 1 1\n",
        b"\x01\0\0\0\x11\x01\0\0\0\0\0\0\0\x01\0\0\0\0\0\0\0\x01\0",
    ),
    (
        b"arrive 0 1 1\narrive 0 1 1\narrive 0 1 0\n",
        b"\x01\0\0\0\x11\x01\0\0\0\0\0\0\0\x01\0\0\0\0\0\0\0\x01\0",
    ),
    // with pair 0, which is switched
    (
        b"delay 0 1 5 0\ndelay 0 1 5 0\n",
        b"\x01\0\0\0\x1d\x02\0\0\0\0\0\0\0\x01\0\0\0\x05\0\0\0\0\0\0\0\0\0\0\0\x01\0\0\0\0\0",
    ),
    (
        b"delay 0 1 5 0\narrive 0 1 6\n",
        b"\x01\0\0\0\x1d\x02\0\0\0\0\0\0\0\x01\0\0\0\x05\0\0\0\0\0\0\0\0\0\0\0\x01\0\0\0\0\x01\0\0\0\x11\x01\0\0\0\0\0\0\0\x01\0\0\0\0\0\0\0\x06\0",
    ),
    // and with none
    (
        b"delay 1 1 1000000 0\n",
        b"\x01\0\0\0\x19\x02\0\0\0\x01\0\0\0\x01\0\x0f\x42\x40\0\0\0\0\0\0\0\0\0\0\0\0\0",
    ),
];

#[test]
fn accepted_reports_alone_are_kept(rt: HostRuntime) -> Result<(), Fail> {
    for (reports, entries) in KEPT {
        let mut station = station_of(rt.alloc(), &[])?;
        next_session(rt.alloc(), CROSSING, reports, &mut station)?;
        let side = side_a(rt.alloc(), &station)?;
        assert_eq!(rt; side.get(164..), Some(entries));
        next_session(rt.alloc(), CROSSING, b"", &mut station)?;
        assert_eq!(rt; side_a(rt.alloc(), &station)?, side);
        assert_eq!(rt; side_b(rt.alloc(), &station)?.len(), 0);
    }
    Ok(())
}
