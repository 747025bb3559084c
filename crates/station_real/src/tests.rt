// The adapters over a folder of their own.
use crate::side_file::{PIECE, folder_of};
use crate::{RealShelf, RealSource, RealStation, StandardStreams};
use station_api::{AttachFault, DiskSide, Shelf, ShelfFault, Source, Station, sync_both};
use std::alloc::Global;
use std::fs::{File, OpenOptions};
use std::process::Abort;
use std::rt::Files;
use std::test::Fail;
use std::time::UNIX_EPOCH;
use std::{env, fs, process};

fn make_folder(rt: HostRuntime, name: &str) -> Result<String, Fail> {
    let temporary = env::temp_dir(&rt)?;
    let id = process::id(rt.process());
    let folder = format!(in rt.alloc(); "{}/fleet_{name}_{id}", temporary.as_path().as_str())?;
    fs::create_dir(&rt, folder.as_str())?;
    Ok(folder)
}

/// Over a journal that has no files yet.
fn assert_keeps_bytes<S: Station>(rt: &impl Abort, station: &mut S) -> Result<(), Fail>
    requires { S.tells → ⊥ }
{
    station.sync(DiskSide::A)?;
    assert_eq!(rt; station.length(DiskSide::A)?, 0);
    station.write_at(DiskSide::A, 0, b"abcdef")?;
    station.cut(DiskSide::A, 4)?;
    sync_both(station)?;
    let mut room = [0; 5];
    assert_eq!(rt; station.read(DiskSide::A, 1, &mut room)?, 3);
    assert_eq!(rt; room, *b"bcd\0\0");
    Ok(())
}

fn assert_fetches<R: Files + AllocGlobal + Abort>(rt: &R, folder: &str) -> Result<(), Fail> {
    let mut shelf = RealShelf::new(rt);
    for (name, limit, answer) in [
        ("/journal.a", 4, None),
        ("/journal.a", 3, Some(ShelfFault::TooLong { length: 4 })),
        ("/journal.b", 9, Some(ShelfFault::Missing)),
        ("", 1 << 20, Some(ShelfFault::Failed)),
    ] {
        let path = format!(in rt.alloc(); "{folder}{name}")?;
        assert_eq!(rt; shelf.fetch(rt.alloc(), path.as_str(), limit).err(), answer);
    }
    Ok(())
}

/// Over the journal that another station has left.
fn assert_goes_on<S: Station>(rt: &impl Abort, station: &mut S) -> Result<(), Fail>
    requires { S.tells → ⊥ }
{
    assert_eq!(rt; station.length(DiskSide::A)?, 4);
    assert_eq!(rt; station.length(DiskSide::B)?, 0);
    station.write_at(DiskSide::A, 3, b"xyz")?;
    station.write_at(DiskSide::B, 0, b"b")?;
    sync_both(station)?;
    let mut room = [0; 9];
    assert_eq!(rt; station.read(DiskSide::A, 0, &mut room)?, 6);
    assert_eq!(rt; room, *b"abcxyz\0\0\0");
    assert_eq!(rt; station.length(DiskSide::B)?, 1);
    Ok(())
}

/// Over a journal in a folder that is missing: it has no files, and none can be made.
fn assert_cannot_be_made<S: Station>(rt: &impl Abort, station: &mut S) -> Result<(), Fail>
    requires { S.tells → ⊥ }
{
    assert_eq!(rt; station.length(DiskSide::A)?, 0);
    assert!(rt; station.write_at(DiskSide::A, 0, b"a").is_err());
    assert!(rt; station.cut(DiskSide::A, 0).is_err());
    assert_eq!(rt; station.length(DiskSide::A)?, 0);
    assert!(rt; station.sync(DiskSide::A).is_err());
    assert!(rt; station.length(DiskSide::A).is_err());
    Ok(())
}

#[test]
fn a_journal_lies_in_two_files(rt: HostRuntime) -> Result<(), Fail> {
    let folder = make_folder(rt, "journal")?;
    let journal = format!(in rt.alloc(); "{folder}/journal")?;
    let mut station = RealStation::new(rt);
    assert!(rt; station.length(DiskSide::A).is_err());
    station.attach(rt.alloc(), journal.as_str())?;
    assert_keeps_bytes(&rt, &mut station)?;
    assert_fetches(&rt, folder.as_str())?;
    drop(station);
    let mut next = RealStation::new(rt);
    next.attach(rt.alloc(), journal.as_str())?;
    assert_goes_on(&rt, &mut next)?;
    fs::remove_dir_all(&rt, folder.as_str())?;
    Ok(())
}

/// How a new station attaches to a journal of this folder.
fn attach<R: Files<File = File> + Print + AllocGlobal>(
    rt: &R,
    folder: &str,
    name: &str,
) -> Result<Option<AttachFault>, Fail> {
    let path = format!(in rt.alloc(); "{folder}/{name}")?;
    Ok(RealStation::new(rt).attach(rt.alloc(), path.as_str()).err())
}

/// Makes a file that may only be read, and says whether it can be written all the same, as root can.
fn make_read_only<R: Files<File = File>>(rt: &R, path: &str) -> Result<bool, Fail> {
    fs::write(rt, path, b"a")?;
    let mut permissions = fs::metadata(rt, path)?.permissions();
    permissions.set_readonly(true);
    fs::set_permissions(rt, path, permissions)?;
    Ok(OpenOptions::new().write(true).open(rt, path).is_ok())
}

#[test]
fn a_journal_that_cannot_be_written_is_a_fault(rt: HostRuntime) -> Result<(), Fail> {
    let folder = make_folder(rt, "faults")?;
    let missing = format!(in rt.alloc(); "{folder}/missing/journal")?;
    let mut station = RealStation::new(rt);
    station.attach(rt.alloc(), missing.as_str())?;
    assert_cannot_be_made(&rt, &mut station)?;
    fs::create_dir(&rt, format!(in rt.alloc(); "{folder}/place.b")?.as_str())?;
    assert_eq!(rt;
        attach(&rt, folder.as_str(), "place")?,
        Some(AttachFault::Failed)
    );
    let path = format!(in rt.alloc(); "{folder}/shut.a")?;
    let writes = make_read_only(&rt, path.as_str())?;
    assert_eq!(rt; attach(&rt, folder.as_str(), "shut")?.is_none(), writes);
    fs::remove_dir_all(&rt, folder.as_str())?;
    Ok(())
}

/// Over a journal that another station has: it is read, and nothing else.
fn assert_is_locked_out<S: Station>(rt: &impl Abort, station: &mut S) -> Result<(), Fail>
    requires { S.tells → ⊥ }
{
    assert!(rt; station.write_at(DiskSide::A, 0, b"z").is_err());
    assert!(rt; station.cut(DiskSide::A, 0).is_err());
    let mut room = [0; 4];
    assert_eq!(rt; station.read(DiskSide::A, 0, &mut room)?, 3);
    assert_eq!(rt; room, *b"abc\0");
    assert!(rt; station.sync(DiskSide::B).is_err());
    assert!(rt; station.length(DiskSide::A).is_err());
    Ok(())
}

/// Over a journal of this name that has no files yet.
fn assert_excludes<R: AllocGlobal + Abort, S: Station>(
    rt: &R,
    journal: &str,
    first: &mut S,
    second: &mut S,
) -> Result<(), Fail>
    requires { S.tells → ⊥ }
{
    first.attach(rt.alloc(), journal)?;
    first.write_at(DiskSide::A, 0, b"abc")?;
    second.attach(rt.alloc(), journal)?;
    assert_is_locked_out(rt, second)?;
    second.attach(rt.alloc(), journal)?;
    first.write_at(DiskSide::B, 0, b"b")?;
    Ok(())
}

/// Over the journal that the first has let go.
fn assert_has_its_turn<S: Station>(rt: &impl Abort, station: &mut S) -> Result<(), Fail>
    requires { S.tells → ⊥ }
{
    station.sync(DiskSide::A)?;
    assert_eq!(rt; station.length(DiskSide::B)?, 1);
    Ok(())
}

#[test]
fn a_journal_has_one_station_at_a_time(rt: HostRuntime) -> Result<(), Fail> {
    let folder = make_folder(rt, "lock")?;
    let journal = format!(in rt.alloc(); "{folder}/journal")?;
    let mut second = RealStation::new(rt);
    let mut first = RealStation::new(rt);
    assert_excludes(&rt, journal.as_str(), &mut first, &mut second)?;
    drop(first);
    assert_has_its_turn(&rt, &mut second)?;
    fs::remove_dir_all(&rt, folder.as_str())?;
    Ok(())
}

#[test]
fn a_file_lies_in_the_folder_before_its_name(rt: HostRuntime) {
    for (path, folder) in [
        ("J.a", "."),
        (".a", "."),
        ("./J.a", "."),
        ("d/J.a", "d"),
        ("d/.a", "d"),
        ("d//.a", "d"),
        ("d/e/J.a", "d/e"),
        ("/J.a", "/"),
        ("/.a", "/"),
        ("../.a", ".."),
    ] {
        assert_eq!(rt; folder_of(path), folder);
    }
}

/// Syncs side A, and says whether its file was written. Its time tells it.
fn sync_writes<S: Station>(station: &mut S, file: &File) -> Result<bool, Fail>
    requires { S.tells → ⊥ }
{
    file.set_modified(UNIX_EPOCH)?;
    station.sync(DiskSide::A)?;
    Ok(file.metadata()?.modified()? != UNIX_EPOCH)
}

/// So many bytes, no two that follow one another the same.
fn bytes_of(alloc: Global, length: usize) -> Result<Vec<u8>, Fail> {
    let mut bytes = Vec::new(alloc);
    for place in 0..length {
        bytes.push((place % 251) as u8)?;
    }
    Ok(bytes)
}

/// Over a new station and side A's file.
fn assert_writes_again<S: Station>(
    rt: &impl Abort,
    station: &mut S,
    file: &File,
    length: usize,
) -> Result<(), Fail>
    requires { S.tells → ⊥ }
{
    assert_eq!(rt; sync_writes(station, file)?, length > 0);
    assert!(rt; !sync_writes(station, file)?);
    Ok(())
}

fn assert_bytes_stay<R: Files<File = File> + Print + AllocGlobal + Abort>(
    rt: &R,
    journal: &str,
    length: usize,
) -> Result<(), Fail> {
    let path = format!(in rt.alloc(); "{journal}.a")?;
    let bytes = bytes_of(rt.alloc(), length)?;
    fs::write(rt, path.as_str(), bytes.as_slice())?;
    let file = OpenOptions::new().write(true).open(rt, path.as_str())?;
    let mut station = RealStation::new(rt);
    station.attach(rt.alloc(), journal)?;
    assert_writes_again(rt, &mut station, &file, length)?;
    assert_eq!(rt; fs::read(rt, path.as_str())?, bytes);
    Ok(())
}

#[test]
fn the_first_sync_writes_all_bytes_again(rt: HostRuntime) -> Result<(), Fail> {
    let folder = make_folder(rt, "again")?;
    let journal = format!(in rt.alloc(); "{folder}/journal")?;
    for length in [0, 1, PIECE - 1, PIECE, PIECE + 1, 2 * PIECE + 3] {
        assert_bytes_stay(&rt, journal.as_str(), length)?;
    }
    fs::remove_dir_all(&rt, folder.as_str())?;
    Ok(())
}

#[test]
fn the_streams_are_read_and_written(rt: HostRuntime) -> Result<(), Fail> {
    let streams = StandardStreams::hold(&rt)?;
    let mut station = RealStation::new(rt);
    assert_eq!(rt; station.send(b"sent\n")?, 5);
    let mut source = RealSource::new(b"ab".as_slice());
    let mut room = [0; 3];
    assert_eq!(rt; source.read(&mut room)?, 2);
    assert_eq!(rt; source.read(&mut room)?, 0);
    drop(streams);
    Ok(())
}
