// Journals that a session refuses: each has its line, and both sides stay as they are.
use station_api::{DiskSide, MemStation, Station};
use std::alloc::Global;
use std::process::Abort;
use std::test::Fail;
use trial_base::{
    CROSSING, CROSSING_MAP, CROSSING_PLAN, Texts, next_session, sent_behind, session, side_a,
    side_b, station_of,
};

/// Side A of a new journal of the crossing.
fn created(alloc: Global) -> Result<Vec<u8>, Fail> {
    let mut station = station_of(alloc, &[])?;
    next_session(alloc, CROSSING, b"", &mut station)?;
    side_a(alloc, &station)
}

/// A station with these sides, which fails at these calls. Its calls begin at 4.
fn with_sides(alloc: Global, a: &[u8], b: &[u8], failing: &[u64]) -> Result<MemStation, Fail> {
    let mut station = station_of(alloc, failing)?;
    if station.attach(alloc, "J").is_err() {
        return Err(Fail::from("attached"));
    }
    station.write_at(DiskSide::A, 0, a)?;
    station.write_at(DiskSide::B, 0, b)?;
    Ok(station)
}

/// A session over sides that it refuses with this line, and one that fails to send it.
fn assert_refused(
    rt: &impl Abort,
    alloc: Global,
    texts: Texts<'_>,
    sides: (&[u8], &[u8]),
    line: &[u8],
) -> Result<(), Fail> {
    let mut calls = None;
    for (code, sent) in [(4, line), (6, b"".as_slice())] {
        let mut station = with_sides(alloc, sides.0, sides.1, calls.as_slice())?;
        assert_eq!(rt;
            session(alloc, texts, b"arrive 0 1 1\n", &mut station)?,
            code
        );
        assert_eq!(rt; sent_behind(alloc, &station, 0)?.as_slice(), sent);
        assert_eq!(rt; side_a(alloc, &station)?.as_slice(), sides.0);
        assert_eq!(rt; side_b(alloc, &station)?.as_slice(), sides.1);
        calls = Some(station.calls());
    }
    Ok(())
}

#[test]
fn what_is_no_journal_is_refused(rt: HostRuntime) -> Result<(), Fail> {
    let blank = b"".as_slice();
    for sides in [
        (CROSSING_MAP, blank),
        (blank, CROSSING_MAP),
        (CROSSING_MAP, CROSSING_PLAN),
    ] {
        assert_refused(&rt, rt.alloc(), CROSSING, sides, b"fault journal\n")?;
    }
    Ok(())
}

/// Side A of the crossing with another byte at a place.
fn with_byte(alloc: Global, place: usize, byte: u8) -> Result<Vec<u8>, Fail> {
    let mut side = created(alloc)?;
    *side.get_mut(place).ok_or("a place")? = byte;
    Ok(side)
}

#[test]
fn a_journal_with_another_byte_is_refused(rt: HostRuntime) -> Result<(), Fail> {
    let rows: [(usize, u8, &[u8]); 5] = [
        // the length of the header's frame, its first byte, and its tag
        (1, 255, b"fault journal\n"),
        (5, b'G', b"fault journal\n"),
        (163, 2, b"fault journal\n"),
        // a byte of the map
        (22, b'x', b"fault other 0\n"),
        // the gate of the first entry
        (164, 1, b"fault record 1\n"),
    ];
    for (place, byte, line) in rows {
        let side = with_byte(rt.alloc(), place, byte)?;
        assert_refused(&rt, rt.alloc(), CROSSING, (&side, b""), line)?;
    }
    Ok(())
}

/// The crossing where robot 1 sets out one tick later.
const LATER: &[u8] =
    b"Agent 0: (1,0)->(1,1)->(1,2)->(1,3)->(1,4)\nAgent 1: (0,2)->(0,2)->(0,2)->(0,2)->(1,2)->(2,2)\n";

/// The crossing on a map with one more row.
const LARGER: &[u8] = b"type octile\nheight 4\nwidth 5\nmap\n@@.@@\n.....\n@@.@@\n@@@@@\n";

#[test]
fn the_journal_of_another_plan_is_refused(rt: HostRuntime) -> Result<(), Fail> {
    let side = created(rt.alloc())?;
    let rows: [(Texts<'_>, &[u8]); 2] = [
        ((CROSSING_MAP, LATER), b"fault other 126\n"),
        ((LARGER, CROSSING_PLAN), b"fault other 19\n"),
    ];
    for (texts, line) in rows {
        assert_refused(&rt, rt.alloc(), texts, (&side, b""), line)?;
    }
    Ok(())
}

#[test]
fn an_entry_that_is_no_step_is_refused(rt: HostRuntime) -> Result<(), Fail> {
    let rows: [(&[u8], &[u8]); 5] = [
        // `arrive 0 2 1`, which is not released
        (
            b"\x01\0\0\0\x11\x01\0\0\0\0\0\0\0\x02\0\0\0\0\0\0\0\x01\0",
            b"fault record 1\n",
        ),
        // `arrive 0 1 1` twice
        (
            b"\x01\0\0\0\x11\x01\0\0\0\0\0\0\0\x01\0\0\0\0\0\0\0\x01\x01\0\0\0\x11\x01\0\0\0\0\0\0\0\x01\0\0\0\0\0\0\0\x01\0",
            b"fault record 2\n",
        ),
        // `delay 0 1 5 0` with pair 1, which is not there
        (
            b"\x01\0\0\0\x1d\x02\0\0\0\0\0\0\0\x01\0\0\0\x05\0\0\0\0\0\0\0\0\0\0\0\x01\0\0\0\x01\0",
            b"fault record 1\n",
        ),
        // `delay 0 1 5 0` with pair 0, and then `delay 1 1 50 0` with it, which is closed by then
        (
            b"\x01\0\0\0\x1d\x02\0\0\0\0\0\0\0\x01\0\0\0\x05\0\0\0\0\0\0\0\0\0\0\0\x01\0\0\0\0\x01\0\0\0\x1d\x02\0\0\0\x01\0\0\0\x01\0\0\0\x32\0\0\0\0\0\0\0\0\0\0\0\x01\0\0\0\0\0",
            b"fault record 2\n",
        ),
        // `arrive 0 1 1` in a frame that ends too early
        (
            b"\x01\0\0\0\x11\x01\0\0\0\0\0\0\0\x01\0\0\0\0\0\0\0\x01",
            b"fault record 1\n",
        ),
    ];
    for (entries, line) in rows {
        let mut side = created(rt.alloc())?;
        side.truncate(164);
        side.extend_from_slice(entries)?;
        assert_refused(&rt, rt.alloc(), CROSSING, (&side, b""), line)?;
    }
    Ok(())
}
