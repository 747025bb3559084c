// The objects in memory, called by scripts.
use crate::{
    DiskSide, MemShelf, MemSource, MemStation, Shelf, ShelfFault, Source, Station, sync_both,
};
use std::alloc::Global;
use std::process::Abort;
use std::test::Fail;

/// One call of a station.
#[derive(Clone, Copy)]
enum Step {
    Attach,
    Write(DiskSide, u64, &'static [u8]),
    Cut(DiskSide, u64),
    Sync(DiskSide),
    Send(&'static [u8]),
}

/// Makes the call, and tells whether the answer was Ok.
fn succeeds(alloc: Global, station: &mut MemStation, step: &Step) -> bool {
    match step {
        Step::Attach => station.attach(alloc, "journal").is_ok(),
        Step::Write(side, at, bytes) => {
            *at <= station.side(*side).len() as u64 && station.write_at(*side, *at, bytes).is_ok()
        }
        Step::Cut(side, length) => {
            *length <= station.side(*side).len() as u64 && station.cut(*side, *length).is_ok()
        }
        Step::Sync(side) => station.sync(*side).is_ok(),
        Step::Send(bytes) => station.send(bytes).is_ok(),
    }
}

/// A station after these calls, of which those with these numbers fail and no other.
fn after(
    rt: &impl Abort,
    alloc: Global,
    failing: &[u64],
    steps: &[Step],
) -> Result<MemStation, Fail> {
    let mut station = MemStation::new(alloc, failing.to_vec(alloc)?);
    for step in steps {
        let fails = failing.contains(&station.calls().saturating_add(1));
        assert!(rt; succeeds(alloc, &mut station, step) != fails);
    }
    Ok(station)
}

/// A stop, and what it is to leave.
#[derive(Clone, Copy)]
struct Stop {
    calls: u64,
    kept: u64,
    fill: u8,
    a: &'static [u8],
    b: &'static [u8],
    sent: &'static [u8],
}

fn assert_stops(
    rt: &impl Abort,
    alloc: Global,
    station: &MemStation,
    stops: &[Stop],
) -> Result<(), Fail> {
    for stop in stops {
        let left = station.stopped(alloc, stop.calls, stop.kept, stop.fill)?;
        assert_eq!(rt; left.side(DiskSide::A), stop.a);
        assert_eq!(rt; left.side(DiskSide::B), stop.b);
        assert_eq!(rt; left.sent(), stop.sent);
        assert_eq!(rt; left.calls(), 0);
    }
    Ok(())
}

/// The same of stops that concern side A alone.
fn assert_leaves_a(
    rt: &impl Abort,
    alloc: Global,
    station: &MemStation,
    stops: &[(u64, u64, u8, &'static [u8])],
) -> Result<(), Fail> {
    for (calls, kept, fill, a) in stops {
        let left = station.stopped(alloc, *calls, *kept, *fill)?;
        assert_eq!(rt; left.side(DiskSide::A), *a);
    }
    Ok(())
}

#[test]
fn a_torn_write_keeps_its_first_bytes(rt: HostRuntime) -> Result<(), Fail> {
    let steps = [
        Step::Attach,
        Step::Write(DiskSide::A, 0, b"abcdef"),
        Step::Sync(DiskSide::A),
        Step::Write(DiskSide::A, 4, b"xyz"),
    ];
    let station = after(&rt, rt.alloc(), &[], &steps)?;
    assert_leaves_a(
        &rt,
        rt.alloc(),
        &station,
        &[
            (2, 0, 7, b"\x07\x07\x07\x07\x07\x07"),
            (3, 0, 7, b"abcdef"),
            (4, 0, 0, b"abcd\x00\x00\x00"),
            (4, 0, 1, b"abcd\x01\x01\x01"),
            (4, 1, 7, b"abcdx\x07\x07"),
            (4, 2, 255, b"abcdxy\xff"),
            (4, 3, 0, b"abcdxyz"),
            (4, 9, 0, b"abcdxyz"),
            (9, 1, 255, b"abcdx\xff\xff"),
        ],
    )
}

#[test]
fn a_cut_and_a_write_after_it(rt: HostRuntime) -> Result<(), Fail> {
    let steps = [
        Step::Attach,
        Step::Write(DiskSide::A, 0, b"abcdef"),
        Step::Sync(DiskSide::A),
        Step::Cut(DiskSide::A, 2),
        Step::Write(DiskSide::A, 1, b"xyz"),
        Step::Cut(DiskSide::A, 3),
    ];
    let station = after(&rt, rt.alloc(), &[], &steps)?;
    assert_leaves_a(
        &rt,
        rt.alloc(),
        &station,
        &[
            (4, 0, 7, b"ab"),
            (5, 0, 7, b"a\x07\x07\x07"),
            (5, 1, 7, b"ax\x07\x07"),
            (6, 1, 7, b"ax\x07"),
            (6, 9, 7, b"axy"),
        ],
    )
}

#[test]
fn side_a_is_counted_before_side_b(rt: HostRuntime) -> Result<(), Fail> {
    let steps = [
        Step::Attach,
        Step::Write(DiskSide::B, 0, b"pq"),
        Step::Write(DiskSide::A, 0, b"x"),
        Step::Send(b"one"),
        Step::Write(DiskSide::A, 1, b"y"),
        Step::Send(b"two"),
    ];
    let station = after(&rt, rt.alloc(), &[], &steps)?;
    assert_stops(
        &rt,
        rt.alloc(),
        &station,
        &[
            Stop {
                calls: 0,
                kept: 9,
                fill: 7,
                a: b"",
                b: b"",
                sent: b"",
            },
            Stop {
                calls: 4,
                kept: 1,
                fill: 7,
                a: b"x",
                b: b"\x07\x07",
                sent: b"one",
            },
            Stop {
                calls: 5,
                kept: 1,
                fill: 7,
                a: b"x\x07",
                b: b"\x07\x07",
                sent: b"one",
            },
            Stop {
                calls: 6,
                kept: 3,
                fill: 255,
                a: b"xy",
                b: b"p\xff",
                sent: b"onetwo",
            },
            Stop {
                calls: 99,
                kept: 4,
                fill: 0,
                a: b"xy",
                b: b"pq",
                sent: b"onetwo",
            },
        ],
    )
}

#[test]
fn a_failed_sync_counts_as_none(rt: HostRuntime) -> Result<(), Fail> {
    let steps = [
        Step::Sync(DiskSide::A),
        Step::Attach,
        Step::Write(DiskSide::A, 0, b"ab"),
        Step::Sync(DiskSide::A),
        Step::Cut(DiskSide::A, 0),
        Step::Write(DiskSide::A, 1, b"z"),
        Step::Send(b"one"),
        Step::Sync(DiskSide::A),
    ];
    let station = after(&rt, rt.alloc(), &[1, 4, 5, 7], &steps)?;
    assert_eq!(rt; station.sent(), b"".as_slice());
    assert_leaves_a(
        &rt,
        rt.alloc(),
        &station,
        &[
            (5, 1, 7, b"a\x07"),
            (7, 0, 7, b"\x07\x07"),
            (8, 0, 7, b"az"),
        ],
    )
}

#[test]
fn each_call_of_a_station_succeeds(rt: HostRuntime) -> Result<(), Fail> {
    let alloc = rt.alloc();
    let steps = [Step::Attach, Step::Write(DiskSide::A, 0, b"abc")];
    let mut station = after(&rt, alloc, &[], &steps)?;
    station.take_at_most(2);
    assert_eq!(rt; station.send(b"one")?, 2);
    assert_eq!(rt; station.sent(), b"on".as_slice());
    sync_both(&mut station)?;
    assert_eq!(rt; station.length(DiskSide::A)?, 3);
    let mut room = [0; 2];
    assert_eq!(rt; station.read(DiskSide::A, 1, &mut room)?, 2);
    assert_eq!(rt; room, *b"bc");
    assert_eq!(rt; station.calls(), 7);
    assert_eq!(rt; station.starved(), 0);
    Ok(())
}

#[test]
fn files_are_fetched_whole(rt: HostRuntime) -> Result<(), Fail> {
    let alloc = rt.alloc();
    let mut shelf = MemShelf::new(alloc, [4].to_vec(alloc)?);
    shelf.put(alloc, "map", b"old")?;
    shelf.put(alloc, "map", b"type")?;
    for (name, limit, answer) in [
        ("map", 4, None),
        ("plan", 4, Some(ShelfFault::Missing)),
        ("map", 3, Some(ShelfFault::TooLong { length: 4 })),
        ("map", 4, Some(ShelfFault::Failed)),
    ] {
        assert_eq!(rt; shelf.fetch(alloc, name, limit).err(), answer);
    }
    assert_eq!(rt;
        shelf.fetch(alloc, "map", 9)?.as_slice(),
        b"type".as_slice()
    );
    Ok(())
}

#[test]
fn bytes_are_read_in_turn(rt: HostRuntime) -> Result<(), Fail> {
    let alloc = rt.alloc();
    let mut source = MemSource::new(alloc, b"lines".to_vec(alloc)?, [2].to_vec(alloc)?);
    let mut room = [0; 3];
    for (answer, filled) in [
        (Some(3), b"lin"),
        (None, b"lin"),
        (Some(2), b"esn"),
        (Some(0), b"esn"),
    ] {
        assert_eq!(rt; source.read(&mut room).ok(), answer);
        assert_eq!(rt; room, *filled);
    }
    Ok(())
}
