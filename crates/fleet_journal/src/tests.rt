// The journal of the crossing over the station in memory, stopped at each call.
ghost use Rattle.std.specs.Prelude.{◌≡◌, ◌^◌, ◌<◌, [], ℕ, List, length, IfOk};
ghost use Rattle.station_api.specs.Scene.{side_of, other_of};
ghost use Rattle.journal_frame.specs.declared.header.HeaderParts.{HeaderParts as Parts};
ghost use Rattle.journal_frame.specs.Frames.{frame_text};
ghost use Rattle.fleet_journal.specs.Sides.{IsClean};
ghost use Rattle.fleet_journal.specs.Journal.{IsHeaderText, HasRead, Stands};

use crate::{Finding, Journal, JournalError, OtherSide, framed};
use fleet_base::{PairList, Report, Text};
use journal_frame::{Header, entry_bytes, header_bytes};
use station_api::{AttachFault, DiskSide, MemStation, Station};
use std::alloc::Global;
use std::process::Abort;
use std::test::Fail;

const MAP: &[u8] = b"type octile\nheight 3\nwidth 5\nmap\n@@.@@\n.....\n@@.@@\n";

const PLAN: &[u8] =
    b"Agent 0: (1,0)->(1,1)->(1,2)->(1,3)->(1,4)\nAgent 1: (0,2)->(0,2)->(0,2)->(1,2)->(2,2)\n";

const FIRST: Report = Report::Arrive {
    robot: 0,
    index: 1,
    tick: 1,
};

/// All calls of a station, for a stop after them.
const ALL: u64 = u64::MAX;

/// The frame of a payload of ordinary length.
fn short_frame(rt: &impl Abort, alloc: Global, payload: &Text) -> Result<Text, Fail>
    ensures text { IfOk result (λ text. text ≡ frame_text payload.now) }
    ensures few { IfOk result (λ text. length text < 2 ^ 32) }
{
    assert!(rt; payload.as_slice().len() < 1000);
    let text = framed(alloc, payload)?;
    assert!(rt; text.as_slice().len() < 2000);
    Ok(text)
}

/// What is written for the header of the crossing.
fn header_text(rt: &impl Abort, alloc: Global) -> Result<Text, Fail>
    ensures header { IfOk result (λ text. (h : Parts) × IsHeaderText text h) }
    ensures few { IfOk result (λ text. length text < 2 ^ 32) }
{
    let header = Header {
        generation: 1,
        map: MAP,
        plan: PLAN,
        summary: None,
    };
    let payload = header_bytes(alloc, &header)?;
    short_frame(rt, alloc, &payload)
}

/// What is written for `arrive 0 1 1`.
fn entry_text(rt: &impl Abort, alloc: Global) -> Result<Text, Fail>
    ensures entry { IfOk result (λ text. (payload : List ℕ) × (text ≡ frame_text payload)) }
    ensures few { IfOk result (λ text. length text < 2 ^ 32) }
{
    let payload = entry_bytes(alloc, &FIRST, &PairList::new(alloc))?;
    short_frame(rt, alloc, &payload)
}

fn attach<T: Station>(alloc: Global, station: &mut T) -> Result<(), JournalError> {
    match station.attach(alloc, "journal") {
        Ok(()) => Ok(()),
        Err(AttachFault::Failed) => Err(JournalError::Station),
        Err(AttachFault::Memory) => Err(JournalError::Memory),
    }
}

/// Makes a journal where none is found.
fn make<T: Station>(
    alloc: Global,
    station: &mut T,
    header: &Text,
    side_limit: u64,
) -> Result<Journal, JournalError>
    requires header { (h : Parts) × IsHeaderText header.now h }
    requires few { length header.now < 2 ^ 32 }
    ensures stands { T.tells → IfOk result (λ journal. (h : Parts) → IsHeaderText header.now h → Stands journal h [] (T.clock station.new).seen) }
    ensures place { IfOk result (λ journal. journal.place < 2 ^ 32) }
{
    match Journal::find(alloc, station)? {
        Finding::Blank => Journal::create(station, header, side_limit),
        Finding::Live { .. } => Err(JournalError::NotJournal),
    }
}

/// Makes a journal, and adds an entry.
fn write<T: Station>(
    alloc: Global,
    station: &mut T,
    header: &Text,
    entry: &Text,
) -> Result<(), JournalError>
    requires header { (h : Parts) × IsHeaderText header.now h }
    requires header_few { length header.now < 2 ^ 32 }
    requires entry { (payload : List ℕ) × (entry.now ≡ frame_text payload) }
    requires entry_few { length entry.now < 2 ^ 32 }
{
    attach(alloc, station)?;
    let mut journal = make(alloc, station, header, 1 << 30)?;
    journal.append(station, entry)
}

/// A station on which a journal with one entry was written, but for the calls that fail.
fn written(
    rt: &impl Abort,
    alloc: Global,
    failing: &[u64],
) -> Result<(MemStation, Option<JournalError>), Fail> {
    let header = header_text(rt, alloc)?;
    let entry = entry_text(rt, alloc)?;
    let mut station = MemStation::new(alloc, failing.to_vec(alloc)?);
    let answer = write(alloc, &mut station, &header, &entry).err();
    Ok((station, answer))
}

fn is_first(entry: &(Report, PairList)) -> bool {
    entry.0 == FIRST && entry.1.as_slice().is_empty()
}

/// How many entries a journal has that is found, and none where there is no journal yet.
fn entries<T: Station>(alloc: Global, station: &mut T) -> Result<Option<u64>, JournalError> {
    match Journal::find(alloc, station)? {
        Finding::Blank => Ok(None),
        Finding::Live {
            journal,
            header: _header,
            other: _other,
        } => Ok(Some(entries_behind_header(alloc, station, journal)?)),
    }
}

/// How many entries follow, and 99 where there are others than `arrive 0 1 1`.
fn entries_behind_header<T: Station>(
    alloc: Global,
    station: &mut T,
    journal: Journal,
) -> Result<u64, JournalError> {
    let mut journal = journal;
    for count in 0..3 {
        match journal.next_entry(alloc, station)? {
            Some(entry) => {
                if !is_first(&entry) {
                    return Ok(99);
                }
            }
            None => return Ok(count),
        }
    }
    Ok(99)
}

/// The same of what a stop leaves.
fn left(
    alloc: Global,
    station: &MemStation,
    calls: u64,
    kept: u64,
    fill: u8,
) -> Result<Option<u64>, Fail> {
    let mut stopped = station.stopped(alloc, calls, kept, fill)?;
    attach(alloc, &mut stopped)?;
    Ok(entries(alloc, &mut stopped)?)
}

/// What a stop after some calls leaves, where the gate that is being written is kept or lost.
fn expected(calls: u64, kept: u64, fill: u8) -> Option<u64> {
    match calls {
        0..=12 => None,
        13 if kept == 0 && fill == 0 => None,
        13..=17 => Some(0),
        18 => Some(u64::from(kept > 0 || fill == 1)),
        _ => Some(1),
    }
}

#[test]
fn a_stop_leaves_the_entry_or_not(rt: HostRuntime) -> Result<(), Fail> {
    let (station, answer) = written(&rt, rt.alloc(), &[])?;
    assert_eq!(rt; answer, None);
    assert_eq!(rt; station.calls(), 19);
    for calls in 0..=19 {
        for kept in [0, 1, ALL] {
            for fill in [0, 1, 7, 255] {
                assert_eq!(rt;
                    left(rt.alloc(), &station, calls, kept, fill)?,
                    expected(calls, kept, fill)
                );
            }
        }
    }
    Ok(())
}

#[test]
fn each_call_fails_in_turn(rt: HostRuntime) -> Result<(), Fail> {
    for failing in 1..=19 {
        let (station, answer) = written(&rt, rt.alloc(), &[failing])?;
        assert_eq!(rt; answer, Some(JournalError::Station));
        assert_eq!(rt; station.calls(), failing);
        assert_eq!(rt;
            left(rt.alloc(), &station, ALL, ALL, 0)?,
            expected(failing - 1, ALL, 0)
        );
    }
    Ok(())
}

#[test]
fn the_journal_of_the_crossing(rt: HostRuntime) -> Result<(), Fail> {
    let (station, _) = written(&rt, rt.alloc(), &[])?;
    let made = station.stopped(rt.alloc(), 15, ALL, 0)?;
    assert_eq!(rt; made.side(DiskSide::A).len(), 165);
    let side = station.side(DiskSide::A);
    assert_eq!(rt; side.len(), 187);
    assert_eq!(rt;
        &side[164..],
        b"\x01\0\0\0\x11\x01\0\0\0\0\0\0\0\x01\0\0\0\0\0\0\0\x01\0".as_slice()
    );
    Ok(())
}

/// A station with these sides.
fn with_sides(alloc: Global, a: &[u8], b: &[u8]) -> Result<MemStation, Fail> {
    let mut station = MemStation::new(alloc, Vec::new(alloc));
    attach(alloc, &mut station)?;
    station.write_at(DiskSide::A, 0, a)?;
    station.write_at(DiskSide::B, 0, b)?;
    Ok(station)
}

/// A small header behind its gate.
const LIVE: &[u8] = b"\x01\0\0\0\x19FLET\x01\0\0\0\0\0\0\0\x01\0\0\0\x01m\0\0\0\x02pl\0\0";

/// The same behind another open gate.
const OTHER_GATE: &[u8] = b"\x07\0\0\0\x19FLET\x01\0\0\0\0\0\0\0\x01\0\0\0\x01m\0\0\0\x02pl\0\0";

/// The same behind a closed gate.
const SHUT: &[u8] = b"\0\0\0\0\x19FLET\x01\0\0\0\0\0\0\0\x01\0\0\0\x01m\0\0\0\x02pl\0\0";

/// What two sides are found to be.
fn sort(alloc: Global, a: &[u8], b: &[u8]) -> Result<&'static str, Fail> {
    let mut station = with_sides(alloc, a, b)?;
    match Journal::find(alloc, &mut station) {
        Ok(Finding::Blank) => Ok("blank"),
        Ok(
            Finding::Live {
                other: OtherSide::Clean,
                ..
            },
        ) => Ok("clean"),
        Ok(
            Finding::Live {
                other: OtherSide::ToClear,
                ..
            },
        ) => Ok("to clear"),
        Err(JournalError::NotJournal) => Ok("no journal"),
        Err(_) => Ok("fault"),
    }
}

#[test]
fn two_sides_are_found(rt: HostRuntime) -> Result<(), Fail> {
    let rows: [(&[u8], &[u8], &str); 17] = [
        (b"", b"", "blank"),
        (b"x", b"\0", "blank"),
        (b"\0text", SHUT, "blank"),
        (MAP, b"", "no journal"),
        (b"", MAP, "no journal"),
        (b"xy", b"", "no journal"),
        (&LIVE[..30], b"", "no journal"),
        (b"\x01\0\0\0\0\0", b"", "no journal"),
        (LIVE, b"", "clean"),
        (LIVE, b"\0", "clean"),
        (OTHER_GATE, b"", "clean"),
        (LIVE, b"x", "to clear"),
        (LIVE, b"\0\0", "to clear"),
        (LIVE, MAP, "to clear"),
        (LIVE, OTHER_GATE, "to clear"),
        (b"", LIVE, "clean"),
        (MAP, LIVE, "to clear"),
    ];
    for (a, b, answer) in rows {
        assert_eq!(rt; sort(rt.alloc(), a, b)?, answer);
    }
    Ok(())
}

/// How many entries stand behind the small header.
fn entries_behind(alloc: Global, tail: &[u8]) -> Result<Result<Option<u64>, JournalError>, Fail> {
    let mut side = LIVE[..30].to_vec(alloc)?;
    side.extend_from_slice(tail)?;
    let mut station = with_sides(alloc, &side, b"")?;
    Ok(entries(alloc, &mut station))
}

#[test]
fn entries_are_read_up_to_a_closed_gate(rt: HostRuntime) -> Result<(), Fail> {
    const BAD: Result<Option<u64>, JournalError> = Err(JournalError::BadRecord { number: 1 });
    let rows: [(&[u8], Result<Option<u64>, JournalError>); 9] = [
        (b"\0", Ok(Some(0))),
        (
            b"\x07\0\0\0\x11\x01\0\0\0\0\0\0\0\x01\0\0\0\0\0\0\0\x01\0",
            Ok(Some(0)),
        ),
        (
            b"\x01\0\0\0\x11\x01\0\0\0\0\0\0\0\x01\0\0\0\0\0\0\0\x01\0",
            Ok(Some(1)),
        ),
        (
            b"\x01\0\0\0\x11\x01\0\0\0\0\0\0\0\x01\0\0\0\0\0\0\0\x01\x09\x01",
            Ok(Some(1)),
        ),
        (
            b"\x01\0\0\0\x11\x01\0\0\0\0\0\0\0\x01\0\0\0\0\0\0\0\x01",
            BAD,
        ),
        (b"\x01", BAD),
        (b"\x01\0\0\0\0\0", BAD),
        (b"\x01\xff\xff\xff\xff\0", BAD),
        (
            b"\x01\0\0\0\x11\x01\0\0\0\0\0\0\0\x01\0\0\0\0\0\0\0\x01\x01\0",
            Err(JournalError::BadRecord { number: 2 }),
        ),
    ];
    for (tail, answer) in rows {
        assert_eq!(rt; entries_behind(rt.alloc(), tail)?, answer);
    }
    Ok(())
}

/// Makes the journal of the crossing on these sides, and answers how long side A is.
fn made_over(
    rt: &impl Abort,
    alloc: Global,
    sides: (&[u8], &[u8]),
    side_limit: u64,
) -> Result<(Option<JournalError>, MemStation), Fail> {
    let header = header_text(rt, alloc)?;
    let mut station = with_sides(alloc, sides.0, sides.1)?;
    let answer = make(alloc, &mut station, &header, side_limit).err();
    Ok((answer, station))
}

#[test]
fn a_journal_is_made_on_blank_sides(rt: HostRuntime) -> Result<(), Fail> {
    let full = Some(JournalError::Full { needed: 165 });
    let rows: [(&[u8], &[u8], u64, Option<JournalError>, usize, &[u8]); 6] = [
        (b"", b"", 165, None, 165, b""),
        (b"", b"", 164, full, 0, b""),
        (b"x", b"", 0, full, 1, b""),
        (b"x", b"x", ALL, None, 165, b"x"),
        (b"\0", SHUT, ALL, None, 165, b"\0"),
        (SHUT, b"\0\0", ALL, None, 165, b"\0"),
    ];
    for (a, b, side_limit, answer, length, beside) in rows {
        let (made, station) = made_over(&rt, rt.alloc(), (a, b), side_limit)?;
        assert_eq!(rt; made, answer);
        assert_eq!(rt; station.side(DiskSide::A).len(), length);
        assert_eq!(rt; station.side(DiskSide::B), beside);
    }
    Ok(())
}

/// Opens a journal with one entry or none, and finishes it.
fn finish<T: Station>(alloc: Global, station: &mut T) -> Result<(), JournalError> {
    match Journal::find(alloc, station)? {
        Finding::Blank => Ok(()),
        Finding::Live {
            journal,
            header: _header,
            other,
        } => finish_behind_header(alloc, station, journal, other),
    }
}

fn finish_behind_header<T: Station>(
    alloc: Global,
    station: &mut T,
    journal: Journal,
    other: OtherSide,
) -> Result<(), JournalError>
    requires reads { T.tells → (header : Parts) × HasRead journal header [] (T.clock station.old).seen }
    requires other { T.tells → other ≡ OtherSide.Clean → IsClean (side_of (other_of journal.side) (T.clock station.old).seen) }
{
    let mut journal = journal;
    let Some(_first) = journal.next_entry(alloc, station)? else {
        return journal.finish(station, other);
    };
    let Some(_second) = journal.next_entry(alloc, station)? else {
        return journal.finish(station, other);
    };
    Ok(())
}

#[test]
fn a_finished_journal_ends_with_its_gate(rt: HostRuntime) -> Result<(), Fail> {
    let alloc = rt.alloc();
    let (station, _) = written(&rt, alloc, &[])?;
    for (fill, count, length, gate) in [(0, 0, 165, 0), (1, 1, 187, 0), (7, 0, 165, 7)] {
        for (beside, cleared) in [
            (b"".as_slice(), b"".as_slice()),
            (MAP, b"\0"),
            (SHUT, b"\0"),
        ] {
            let mut left = station.stopped(alloc, 18, 0, fill)?;
            attach(alloc, &mut left)?;
            left.write_at(DiskSide::B, 0, beside)?;
            finish(alloc, &mut left)?;
            assert_eq!(rt; left.side(DiskSide::A).len(), length);
            assert_eq!(rt; left.side(DiskSide::A).last(), Some(&gate));
            assert_eq!(rt; left.side(DiskSide::B), cleared);
            assert_eq!(rt; entries(alloc, &mut left)?, Some(count));
        }
    }
    Ok(())
}

#[test]
fn a_frame_fits_with_the_gate_behind_it(rt: HostRuntime) -> Result<(), Fail> {
    let header = header_text(&rt, rt.alloc())?;
    let mut station = with_sides(rt.alloc(), b"", b"")?;
    let journal = make(rt.alloc(), &mut station, &header, ALL)?;
    for (payload, side_limit, fits) in [
        (17, 187, true),
        (17, 186, false),
        (ALL, ALL, false),
        (ALL - 170, ALL, true),
        (ALL - 169, ALL, false),
    ] {
        assert_eq!(rt; journal.fits(payload, side_limit), fits);
    }
    Ok(())
}
