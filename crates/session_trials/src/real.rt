// The program over real files in a folder of its own. Its answers go to standard output.
use station_api::MemSource;
use station_real::{RealShelf, RealStation};
use std::alloc::Global;
use std::fs::{File, OpenOptions};
use std::process::Abort;
use std::rt::Files;
use std::test::Fail;
use std::{env, fs, process};
use trial_base::{
    CROSSING_MAP, CROSSING_PLAN, WHOLE_PLAN, end_of, joined, play, side_a, station_of,
};

/// A folder with a map `M` and a plan `P`.
fn make_folder(rt: HostRuntime) -> Result<String, Fail> {
    let temporary = env::temp_dir(&rt)?;
    let id = process::id(rt.process());
    let folder = format!(in rt.alloc(); "{}/session_trials_{id}", temporary.as_path().as_str())?;
    fs::create_dir(&rt, folder.as_str())?;
    fs::write(
        &rt,
        path_of(rt.alloc(), &folder, "M")?.as_str(),
        CROSSING_MAP,
    )?;
    fs::write(
        &rt,
        path_of(rt.alloc(), &folder, "P")?.as_str(),
        CROSSING_PLAN,
    )?;
    Ok(folder)
}

fn path_of(alloc: Global, folder: &str, name: &str) -> Result<String, Fail> {
    Ok(format!(in alloc; "{folder}/{name}")?)
}

/// The status with which a session ends that hears these reports of the whole plan, over the journal of this name.
fn run_over<R: Files<File = File> + Print + AllocGlobal>(
    rt: &R,
    folder: &str,
    journal: &str,
    reports: &[&[u8]],
) -> Result<u8, Fail> {
    let alloc = rt.alloc();
    let mut shelf = RealShelf::new(rt);
    let mut source = MemSource::new(alloc, joined(alloc, reports)?, Vec::new(alloc));
    let mut station = RealStation::new(rt);
    let map = path_of(alloc, folder, "M")?;
    let plan = path_of(alloc, folder, "P")?;
    let journal = path_of(alloc, folder, journal)?;
    let words = ["run", map.as_str(), plan.as_str(), journal.as_str()];
    end_of(alloc, &words, &mut shelf, &mut source, &mut station)
}

/// Side A after the first reports of the whole plan, as the station in memory has it.
fn side_after(alloc: Global, count: usize) -> Result<Vec<u8>, Fail> {
    let mut station = station_of(alloc, &[])?;
    play(alloc, &WHOLE_PLAN, count, &mut station)?;
    side_a(alloc, &station)
}

/// One session hears the first three reports, the next one all of them, and the third none.
fn assert_sessions<R: Files<File = File> + Print + AllocGlobal + Abort>(
    rt: &R,
    folder: &str,
) -> Result<(), Fail> {
    for (reports, count) in [
        (WHOLE_PLAN.reports.get(..3).ok_or("reports")?, 3),
        (WHOLE_PLAN.reports, 6),
        (&[], 6),
    ] {
        assert_eq!(rt; run_over(rt, folder, "J", reports)?, 0);
        let side = fs::read(rt, path_of(rt.alloc(), folder, "J.a")?.as_str())?;
        assert_eq!(rt; side, side_after(rt.alloc(), count)?);
        let other = path_of(rt.alloc(), folder, "J.b")?;
        assert!(rt; fs::metadata(rt, other.as_str()).is_err());
    }
    Ok(())
}

/// A folder that is missing, and one that stands in the place of a side.
fn assert_faults<R: Files<File = File> + Print + AllocGlobal + Abort>(
    rt: &R,
    folder: &str,
) -> Result<(), Fail> {
    fs::create_dir(rt, path_of(rt.alloc(), folder, "A.a")?.as_str())?;
    fs::create_dir(rt, path_of(rt.alloc(), folder, "B.b")?.as_str())?;
    for journal in ["missing/J", "A", "B"] {
        assert_eq!(rt; run_over(rt, folder, journal, WHOLE_PLAN.reports)?, 6);
    }
    Ok(())
}

/// A journal that may only be read. Root may write it all the same.
fn assert_read_only<R: Files<File = File> + Print + AllocGlobal + Abort>(
    rt: &R,
    folder: &str,
) -> Result<(), Fail> {
    let path = path_of(rt.alloc(), folder, "J.a")?;
    let before = fs::read(rt, path.as_str())?;
    let mut permissions = fs::metadata(rt, path.as_str())?.permissions();
    permissions.set_readonly(true);
    fs::set_permissions(rt, path.as_str(), permissions)?;
    let is_root = OpenOptions::new()
        .write(true)
        .open(rt, path.as_str())
        .is_ok();
    let code = if is_root { 0 } else { 6 };
    assert_eq!(rt; run_over(rt, folder, "J", &[])?, code);
    assert_eq!(rt; fs::read(rt, path.as_str())?, before);
    Ok(())
}

#[test]
fn a_journal_lies_in_real_files(rt: HostRuntime) -> Result<(), Fail> {
    let folder = make_folder(rt)?;
    assert_sessions(&rt, folder.as_str())?;
    assert_faults(&rt, folder.as_str())?;
    assert_read_only(&rt, folder.as_str())?;
    fs::remove_dir_all(&rt, folder.as_str())?;
    Ok(())
}
