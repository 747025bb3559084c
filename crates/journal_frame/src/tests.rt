use crate::{FrameError, Header, entry_bytes, header_bytes, read_entry, read_header};
use fleet_base::{Memory, PairId, Report};
use std::alloc::Global;
use std::test::Fail;

const MAP: &[u8] = b"type octile\nheight 3\nwidth 5\nmap\n@@.@@\n.....\n@@.@@\n";

const PLAN: &[u8] =
    b"Agent 0: (1,0)->(1,1)->(1,2)->(1,3)->(1,4)\nAgent 1: (0,2)->(0,2)->(0,2)->(1,2)->(2,2)\n";

const CROSSING: &[u8] =
    b"FLET\x01\0\0\0\0\0\0\0\x01\0\0\0\x33type octile\nheight 3\nwidth 5\nmap\n@@.@@\n.....\n@@.@@\n\0\0\0\x56Agent 0: (1,0)->(1,1)->(1,2)->(1,3)->(1,4)\nAgent 1: (0,2)->(0,2)->(0,2)->(1,2)->(2,2)\n\0";

const FIRST: Report = Report::Arrive {
    robot: 0,
    index: 1,
    tick: 1,
};

const GREATEST: Report = Report::Arrive {
    robot: 4_294_967_295,
    index: 4_294_967_294,
    tick: u64::MAX,
};

const LATE: Report = Report::Delay {
    robot: 1,
    index: 2,
    extra: 772,
    tick: 72_623_859_790_382_856,
};

/// A report, the pairs that are switched for it, the length of its payload, and the payload.
type Row = (Report, &'static [PairId], usize, &'static [u8]);

fn entries() -> [Row; 5] {
    [
        (FIRST, &[], 17, b"\x01\0\0\0\0\0\0\0\x01\0\0\0\0\0\0\0\x01"),
        (
            GREATEST,
            &[],
            17,
            b"\x01\xff\xff\xff\xff\xff\xff\xff\xfe\xff\xff\xff\xff\xff\xff\xff\xff",
        ),
        (
            LATE,
            &[],
            25,
            b"\x02\0\0\0\x01\0\0\0\x02\0\0\x03\x04\x01\x02\x03\x04\x05\x06\x07\x08\0\0\0\0",
        ),
        (
            LATE,
            &[PairId(0)],
            29,
            b"\x02\0\0\0\x01\0\0\0\x02\0\0\x03\x04\x01\x02\x03\x04\x05\x06\x07\x08\0\0\0\x01\0\0\0\0",
        ),
        (
            LATE,
            &[PairId(7), PairId(4_294_967_295)],
            33,
            b"\x02\0\0\0\x01\0\0\0\x02\0\0\x03\x04\x01\x02\x03\x04\x05\x06\x07\x08\0\0\0\x02\0\0\0\x07\xff\xff\xff\xff",
        ),
    ]
}

#[test]
fn entries_are_read_and_written_again(rt: HostRuntime) -> Result<(), Fail> {
    for (report, switched, length, payload) in entries() {
        let (read, pairs) = read_entry(rt.alloc(), payload)?;
        assert_eq!(rt; read, report);
        assert_eq!(rt; pairs.as_slice(), switched);
        let text = entry_bytes(rt.alloc(), &read, &pairs)?;
        assert_eq!(rt; text.as_slice(), payload);
        assert_eq!(rt; payload.len(), length);
    }
    Ok(())
}

fn is_no_entry(alloc: Global, payload: &[u8]) -> bool {
    matches!(read_entry(alloc, payload), Err(FrameError::NotInGrammar))
}

fn is_no_header(alloc: Global, payload: &[u8]) -> bool {
    matches!(read_header(alloc, payload), Err(FrameError::NotInGrammar))
}

/// The bytes, and one more.
fn lengthened(alloc: Global, payload: &[u8]) -> Result<Vec<u8>, Memory> {
    match Vec::from_slice(alloc, payload) {
        Ok(mut longer) => match longer.push(0) {
            Ok(()) => Ok(longer),
            Err(_) => Err(Memory),
        },
        Err(_) => Err(Memory),
    }
}

#[test]
fn cut_and_lengthened_entries_are_refused(rt: HostRuntime) -> Result<(), Fail> {
    for (_, _, _, payload) in entries() {
        for end in 0..payload.len() {
            assert!(rt; is_no_entry(rt.alloc(), &payload[..end]));
        }
        assert!(rt; is_no_entry(rt.alloc(), &lengthened(rt.alloc(), payload)?));
    }
    Ok(())
}

#[test]
fn other_bytes_are_no_entries(rt: HostRuntime) {
    let rows: [&[u8]; 8] = [
        // No kind, and kinds that there are not.
        b"",
        b"\0\0\0\0\0\0\0\0\x01\0\0\0\0\0\0\0\x01",
        b"\x03\0\0\0\0\0\0\0\x01\0\0\0\0\0\0\0\x01",
        // Pairs that are equal, and that fall.
        b"\x02\0\0\0\x01\0\0\0\x02\0\0\0\x03\0\0\0\0\0\0\0\x04\0\0\0\x02\0\0\0\x07\0\0\0\x07",
        b"\x02\0\0\0\x01\0\0\0\x02\0\0\0\x03\0\0\0\0\0\0\0\x04\0\0\0\x03\0\0\0\x05\0\0\0\x07\0\0\0\x06",
        // More pairs than there are, and fewer.
        b"\x02\0\0\0\x01\0\0\0\x02\0\0\0\x03\0\0\0\0\0\0\0\x04\xff\xff\xff\xff\0\0\0\x07",
        b"\x02\0\0\0\x01\0\0\0\x02\0\0\0\x03\0\0\0\0\0\0\0\x04\0\0\0\x02\0\0\0\x07",
        b"\x02\0\0\0\x01\0\0\0\x02\0\0\0\x03\0\0\0\0\0\0\0\x04\0\0\0\0\0\0\0\x07",
    ];
    for payload in rows {
        assert!(rt; is_no_entry(rt.alloc(), payload));
    }
}

#[test]
fn the_header_of_the_crossing_is_written(rt: HostRuntime) -> Result<(), Fail> {
    let header = Header {
        generation: 1,
        map: MAP,
        plan: PLAN,
        summary: None,
    };
    let text = header_bytes(rt.alloc(), &header)?;
    assert_eq!(rt; text.as_slice(), CROSSING);
    assert_eq!(rt; text.as_slice().len(), 159);
    Ok(())
}

#[test]
fn headers_are_read(rt: HostRuntime) -> Result<(), Fail> {
    let rows: [(&[u8], &[u8], &[u8]); 3] = [
        (CROSSING, MAP, PLAN),
        (
            b"FLET\x01\0\0\0\0\0\0\0\x01\0\0\0\x01m\0\0\0\x02pl\0",
            b"m",
            b"pl",
        ),
        (b"FLET\x01\0\0\0\0\0\0\0\x01\0\0\0\0\0\0\0\0\0", b"", b""),
    ];
    for (payload, map, plan) in rows {
        let parts = read_header(rt.alloc(), payload)?;
        assert_eq!(rt; parts.generation, 1);
        assert_eq!(rt; parts.map.as_slice(), map);
        assert_eq!(rt; parts.plan.as_slice(), plan);
        assert!(rt; parts.summary.is_none());
    }
    Ok(())
}

#[test]
fn cut_and_lengthened_headers_are_refused(rt: HostRuntime) -> Result<(), Fail> {
    for end in 0..CROSSING.len() {
        assert!(rt; is_no_header(rt.alloc(), &CROSSING[..end]));
    }
    assert!(rt; is_no_header(rt.alloc(), &lengthened(rt.alloc(), CROSSING)?));
    Ok(())
}

#[test]
fn other_bytes_are_no_headers(rt: HostRuntime) {
    let rows: [&[u8]; 12] = [
        // Other first bytes, and other versions.
        b"flet\x01\0\0\0\0\0\0\0\x01\0\0\0\x01m\0\0\0\x01p\0",
        b"FLET\0\0\0\0\0\0\0\0\x01\0\0\0\x01m\0\0\0\x01p\0",
        b"FLET\x02\0\0\0\0\0\0\0\x01\0\0\0\x01m\0\0\0\x01p\0",
        // Other generations.
        b"FLET\x01\0\0\0\0\0\0\0\0\0\0\0\x01m\0\0\0\x01p\0",
        b"FLET\x01\0\0\0\0\0\0\0\x02\0\0\0\x01m\0\0\0\x01p\0",
        b"FLET\x01\xff\xff\xff\xff\xff\xff\xff\xff\0\0\0\x01m\0\0\0\x01p\0",
        // Lengths past the end.
        b"FLET\x01\0\0\0\0\0\0\0\x01\0\0\0\x08m\0\0\0\x01p\0",
        b"FLET\x01\0\0\0\0\0\0\0\x01\xff\xff\xff\xffm\0\0\0\x01p\0",
        b"FLET\x01\0\0\0\0\0\0\0\x01\0\0\0\x01m\0\0\0\x03p\0",
        b"FLET\x01\0\0\0\0\0\0\0\x01\0\0\0\x01m\xff\xff\xff\xffp\0",
        // Other tags.
        b"FLET\x01\0\0\0\0\0\0\0\x01\0\0\0\x01m\0\0\0\x01p\x01",
        b"FLET\x01\0\0\0\0\0\0\0\x01\0\0\0\x01m\0\0\0\x01p\x02",
    ];
    for payload in rows {
        assert!(rt; is_no_header(rt.alloc(), payload));
    }
}
