use crate::crossing::{MAP, PLAN, crossing};
use fleet_journal::JournalError;
use fleet_recovery::{RecoverError, look, recover};
use station_api::{DiskSide, MemStation, Station};
use std::alloc::Global;
use std::test::Fail;

/// How many reports the state holds for which the sides stand, or why there is none.
type Answer = Result<u64, RecoverError>;

const NOT_JOURNAL: Answer = Err(RecoverError::Journal(JournalError::NotJournal));

const fn bad_record(number: u64) -> Answer {
    Err(RecoverError::Journal(JournalError::BadRecord { number }))
}

fn looked<T: Station>(alloc: Global, station: &mut T) -> Result<Answer, Fail> {
    let (plan, pairs) = crossing(alloc)?;
    match look(alloc, station, &plan, &pairs, MAP, PLAN) {
        Ok(looked) => Ok(Ok(looked.fleet.count())),
        Err(error) => Ok(Err(error)),
    }
}

fn recovered<T: Station>(alloc: Global, station: &mut T, side_limit: u64) -> Result<Answer, Fail> {
    let (plan, pairs) = crossing(alloc)?;
    match recover(alloc, station, &plan, &pairs, MAP, PLAN, side_limit) {
        Ok((fleet, _journal)) => Ok(Ok(fleet.count())),
        Err(error) => Ok(Err(error)),
    }
}

/// A station with these sides.
fn with_sides(alloc: Global, a: &[u8], b: &[u8]) -> Result<MemStation, Fail> {
    let mut station = MemStation::new(alloc, Vec::new(alloc));
    if station.attach(alloc, "journal").is_err() {
        return Err(Fail::from("attached"));
    }
    station.write_at(DiskSide::A, 0, a)?;
    station.write_at(DiskSide::B, 0, b)?;
    Ok(station)
}

/// Looks at sides, opens them, and looks again: the answers, and the sides afterwards.
#[derive(Debug, Drop)]
struct Trial {
    answers: [Answer; 3],
    a: Vec<u8>,
    b: Vec<u8>,
}

fn opened(alloc: Global, a: &[u8], b: &[u8], side_limit: u64) -> Result<Trial, Fail> {
    let mut station = with_sides(alloc, a, b)?;
    let first = looked(alloc, &mut station)?;
    let opening = recovered(alloc, &mut station, side_limit)?;
    let last = looked(alloc, &mut station)?;
    Ok(Trial {
        answers: [first, opening, last],
        a: station.side(DiskSide::A).to_vec(alloc)?,
        b: station.side(DiskSide::B).to_vec(alloc)?,
    })
}

/// The side of a journal that was made for the crossing.
fn made(alloc: Global) -> Result<Vec<u8>, Fail> {
    Ok(opened(alloc, b"", b"", u64::MAX)?.a)
}

/// That side with other bytes from the gate of the first entry on.
fn with_tail(alloc: Global, tail: &[u8]) -> Result<Vec<u8>, Fail> {
    let mut side = made(alloc)?;
    side.truncate(164);
    side.extend_from_slice(tail)?;
    Ok(side)
}

/// That side with another byte at a place.
fn with_byte(alloc: Global, place: usize, byte: u8) -> Result<Vec<u8>, Fail> {
    let mut side = made(alloc)?;
    if let Some(there) = side.get_mut(place) {
        *there = byte;
    }
    Ok(side)
}

#[test]
fn entries_are_steps(rt: HostRuntime) -> Result<(), Fail> {
    let rows: [(&[u8], Answer, usize); 12] = [
        (b"\0", Ok(0), 165),
        (b"\x01", bad_record(1), 165),
        // `arrive 0 1 1`, behind each gate.
        (
            b"\0\0\0\0\x11\x01\0\0\0\0\0\0\0\x01\0\0\0\0\0\0\0\x01\0",
            Ok(0),
            165,
        ),
        (
            b"\x01\0\0\0\x11\x01\0\0\0\0\0\0\0\x01\0\0\0\0\0\0\0\x01\0",
            Ok(1),
            187,
        ),
        (
            b"\x07\0\0\0\x11\x01\0\0\0\0\0\0\0\x01\0\0\0\0\0\0\0\x01\0",
            Ok(0),
            165,
        ),
        // `arrive 0 3 1`, which is not released.
        (
            b"\x01\0\0\0\x11\x01\0\0\0\0\0\0\0\x03\0\0\0\0\0\0\0\x01\0",
            bad_record(1),
            187,
        ),
        // `arrive 0 1 1` twice.
        (
            b"\x01\0\0\0\x11\x01\0\0\0\0\0\0\0\x01\0\0\0\0\0\0\0\x01\x01\0\0\0\x11\x01\0\0\0\0\0\0\0\x01\0\0\0\0\0\0\0\x01\0",
            bad_record(2),
            209,
        ),
        // `delay 0 1 5 0`: without a pair, with one, and with one that is not there.
        (
            b"\x01\0\0\0\x19\x02\0\0\0\0\0\0\0\x01\0\0\0\x05\0\0\0\0\0\0\0\0\0\0\0\0\0",
            Ok(1),
            195,
        ),
        (
            b"\x01\0\0\0\x1d\x02\0\0\0\0\0\0\0\x01\0\0\0\x05\0\0\0\0\0\0\0\0\0\0\0\x01\0\0\0\0\0",
            Ok(1),
            199,
        ),
        (
            b"\x01\0\0\0\x1d\x02\0\0\0\0\0\0\0\x01\0\0\0\x05\0\0\0\0\0\0\0\0\0\0\0\x01\0\0\0\x01\0",
            bad_record(1),
            199,
        ),
        // `delay 1 1 50 0` with a pair, which makes the order no cheaper: it is the entry's.
        (
            b"\x01\0\0\0\x1d\x02\0\0\0\x01\0\0\0\x01\0\0\0\x32\0\0\0\0\0\0\0\0\0\0\0\x01\0\0\0\0\0",
            Ok(1),
            199,
        ),
        // A front of a frame behind a closed gate.
        (b"\0\0\0\0\x11\x01\0", Ok(0), 165),
    ];
    for (tail, answer, length) in rows {
        let side = with_tail(rt.alloc(), tail)?;
        let opened = opened(rt.alloc(), &side, b"", u64::MAX)?;
        assert_eq!(rt; opened.answers, [answer; 3]);
        assert_eq!(rt; opened.a.len(), length);
        assert_eq!(rt; opened.b.len(), 0);
    }
    Ok(())
}

#[test]
fn headers_name_their_papers(rt: HostRuntime) -> Result<(), Fail> {
    let rows: [(usize, u8, Answer); 8] = [
        (0, 1, Ok(0)),
        (0, 7, Ok(0)),
        (0, 0, Ok(0)),
        (5, b'G', NOT_JOURNAL),
        (17, 2, NOT_JOURNAL),
        (22, b'x', Err(RecoverError::OtherPlan { at: 0 })),
        (87, b'x', Err(RecoverError::OtherPlan { at: 62 })),
        (162, b'x', Err(RecoverError::OtherPlan { at: 137 })),
    ];
    for (place, byte, answer) in rows {
        let side = with_byte(rt.alloc(), place, byte)?;
        let opened = opened(rt.alloc(), &side, b"", u64::MAX)?;
        assert_eq!(rt; opened.answers, [answer; 3]);
        assert_eq!(rt; opened.a.len(), 165);
        if answer.is_err() {
            assert_eq!(rt; opened.a, side);
        }
    }
    Ok(())
}

/// A side: empty, one byte, one closed gate, a text, or a journal with no entry, with one, or with a header that is not
/// in the grammar.
#[derive(Clone, Copy)]
enum Side {
    Empty,
    Byte,
    Gate,
    Text,
    NoEntry,
    OneEntry,
    Later,
}

fn side_of(alloc: Global, side: Side) -> Result<Vec<u8>, Fail> {
    match side {
        Side::Empty => Ok(Vec::new(alloc)),
        Side::Byte => Ok(b"x".to_vec(alloc)?),
        Side::Gate => Ok(b"\0".to_vec(alloc)?),
        Side::Text => Ok(MAP.to_vec(alloc)?),
        Side::NoEntry => made(alloc),
        Side::OneEntry => with_tail(
            alloc,
            b"\x01\0\0\0\x11\x01\0\0\0\0\0\0\0\x01\0\0\0\0\0\0\0\x01\0",
        ),
        Side::Later => with_byte(alloc, 17, 2),
    }
}

#[test]
fn one_of_two_sides_is_taken(rt: HostRuntime) -> Result<(), Fail> {
    use Side::{Byte, Empty, Gate, Later, NoEntry, OneEntry, Text};
    let rows = [
        ((Empty, Empty), Ok(0), (NoEntry, Empty)),
        ((Byte, Empty), Ok(0), (NoEntry, Empty)),
        ((Text, Empty), NOT_JOURNAL, (Text, Empty)),
        ((Empty, Text), NOT_JOURNAL, (Empty, Text)),
        ((NoEntry, OneEntry), Ok(0), (NoEntry, Gate)),
        ((OneEntry, NoEntry), Ok(1), (OneEntry, Gate)),
        ((OneEntry, Later), Ok(1), (OneEntry, Gate)),
        ((OneEntry, Text), Ok(1), (OneEntry, Gate)),
        ((Text, OneEntry), Ok(1), (Gate, OneEntry)),
        ((Later, OneEntry), Ok(1), (Gate, OneEntry)),
    ];
    for (before, answer, after) in rows {
        let a = side_of(rt.alloc(), before.0)?;
        let b = side_of(rt.alloc(), before.1)?;
        let opened = opened(rt.alloc(), &a, &b, u64::MAX)?;
        assert_eq!(rt; opened.answers, [answer; 3]);
        assert_eq!(rt; opened.a, side_of(rt.alloc(), after.0)?);
        assert_eq!(rt; opened.b, side_of(rt.alloc(), after.1)?);
    }
    Ok(())
}

#[test]
fn a_side_has_room_for_the_header(rt: HostRuntime) -> Result<(), Fail> {
    let full = Err(RecoverError::Journal(JournalError::Full { needed: 165 }));
    for (side_limit, opening, length) in [(165, Ok(0), 165), (164, full, 0)] {
        let opened = opened(rt.alloc(), b"", b"", side_limit)?;
        assert_eq!(rt; opened.answers, [Ok(0), opening, Ok(0)]);
        assert_eq!(rt; opened.a.len(), length);
    }
    Ok(())
}
