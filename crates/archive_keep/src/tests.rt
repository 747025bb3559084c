// The keeper in memory and the report, called by scripts.
use crate::{EndList, Keeper, MemKeeper, RobotEnd, Stored, is_storable, lateness};
use fleet_base::Items;
use std::alloc::Global;
use std::process::Abort;
use std::test::Fail;

fn ends_of(alloc: Global, ends: &[(u64, u64)]) -> Result<EndList, Fail> {
    let mut list = Items::new(alloc);
    for (planned, actual) in ends {
        list.push(RobotEnd {
            planned: *planned,
            actual: *actual,
        })?;
    }
    Ok(list)
}

/// Stores ends that may be stored.
fn stored(
    alloc: Global,
    keeper: &mut MemKeeper,
    run: &[u8],
    ends: &[(u64, u64)],
) -> Result<Option<Stored>, Fail> {
    let list = ends_of(alloc, ends)?;
    if !is_storable(&list) {
        return Ok(None);
    }
    match keeper.store(alloc, run, &list) {
        Ok(stored) => Ok(Some(stored)),
        Err(_) => Ok(None),
    }
}

/// The report has these lines.
fn assert_reports(
    rt: &impl Abort,
    alloc: Global,
    keeper: &mut MemKeeper,
    lines: &[u8],
) -> Result<(), Fail> {
    let mut out = Items::new(alloc);
    lateness(alloc, keeper, &mut out)?;
    assert_eq!(rt; out.as_slice(), lines);
    Ok(())
}

#[test]
fn a_run_is_stored_once(rt: HostRuntime) -> Result<(), Fail> {
    let alloc = rt.alloc();
    let mut keeper = MemKeeper::new(alloc, [1, 5].to_vec(alloc)?);
    let crossing = [(4, 4), (4, 5)];
    assert_eq!(&rt; stored(alloc, &mut keeper, b"first", &crossing)?, None);
    keeper.attach(alloc, "archive")?;
    for (run, ends, answer) in [
        (b"first".as_slice(), [(4, 4), (4, 5)], Some(Stored::New)),
        (b"first".as_slice(), [(4, 9), (4, 9)], Some(Stored::Kept)),
        (b"other".as_slice(), [(4, 9), (4, 9)], None),
        (b"other".as_slice(), [(4, 2), (4, 9)], Some(Stored::New)),
    ] {
        assert_eq!(&rt; stored(alloc, &mut keeper, run, &ends)?, answer);
    }
    assert_eq!(&rt; keeper.runs()?, 2);
    assert_reports(
        &rt,
        alloc,
        &mut keeper,
        b"late 0 2 8 6 0\nlate 1 2 8 14 6\nruns 2\n",
    )
}

#[test]
fn reports(rt: HostRuntime) -> Result<(), Fail> {
    let alloc = rt.alloc();
    let mut keeper = MemKeeper::new(alloc, Vec::new(alloc));
    keeper.attach(alloc, "archive")?;
    assert_reports(&rt, alloc, &mut keeper, b"runs 0\n")?;
    stored(alloc, &mut keeper, b"first", &[(4, 4), (4, 5)])?;
    assert_reports(
        &rt,
        alloc,
        &mut keeper,
        b"late 0 1 4 4 0\nlate 1 1 4 5 1\nruns 1\n",
    )?;
    stored(alloc, &mut keeper, b"a-second", &[(9, 12)])?;
    assert_reports(
        &rt,
        alloc,
        &mut keeper,
        b"late 0 2 13 16 3\nlate 1 1 4 5 1\nruns 2\n",
    )?;
    let ends = keeper.rows(alloc, 0)?;
    assert_eq!(&rt; ends.as_slice().first().map(|ticks| ticks.planned), Some(9));
    assert_eq!(&rt; keeper.ends(b"a-second").map(|ends| ends.len()), Some(1));
    Ok(())
}
