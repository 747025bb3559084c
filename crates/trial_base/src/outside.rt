// The program over files, reports and a station in memory.
ghost use Rattle.std.specs.Prelude.{◌≡◌, ◌≤◌, ◌-◌, ◌^◌, ℕ, List, [], false, Some, None, IfOk, OnOk, codes, drop, flat_map, length, if◌then◌else◌};
ghost use Rattle.std.specs.Str.{bytes_eq};
ghost use Rattle.station_api.specs.Clock.{IsKept};
ghost use Rattle.station_api.specs.Replay.{scene};
ghost use Rattle.station_api.specs.Scene.{side_of};
ghost use Rattle.station_api.specs.ShelfState.{shelf_file, shelf_fails_at};
ghost use Rattle.station_api.specs.StationState.{station_clock, calls_of, fails_at, is_attached};

use crate::papers::{CROSSING, Script, Texts};
use fleet_cli::fleet_main;
use station_api::{DiskSide, MemShelf, MemSource, MemStation, Shelf, Source, Station};
use std::alloc::Global;
use std::test::Fail;

/// Words as the program takes them.
fn word_list(alloc: Global, words: &[&str]) -> Result<Vec<String>, Fail> {
    let mut list = Vec::new(alloc);
    push_words(alloc, &mut list, words)?;
    Ok(list)
}

/// Puts words behind those of a list.
fn push_words(alloc: Global, list: &mut Vec<String>, words: &[&str]) -> Result<(), Fail> {
    for word in words {
        list.push(String::from_str(alloc, word)?)?;
    }
    Ok(())
}

/// A shelf with a map `M` and a plan `P`, which fails at these calls.
pub fn shelf_of(alloc: Global, texts: Texts<'_>, failing: &[u64]) -> Result<MemShelf, Fail>
    ensures files { IfOk result (λ shelf. (name : List ℕ) → shelf_file shelf name ≡ (if bytes_eq (codes "P") name then Some texts.entry.1.now else if bytes_eq (codes "M") name then Some texts.entry.0.now else None)) }
    ensures failing { IfOk result (λ shelf. shelf_fails_at shelf ≡ failing.now) }
    ensures calls { IfOk result (λ shelf. shelf.meter.calls ≡ 0) }
{
    let mut shelf = MemShelf::new(alloc, failing.to_vec(alloc)?);
    shelf.put(alloc, "M", texts.0)?;
    shelf.put(alloc, "P", texts.1)?;
    Ok(shelf)
}

/// A station that fails at these calls.
pub fn station_of(alloc: Global, failing: &[u64]) -> Result<MemStation, Fail>
    ensures seen { IfOk result (λ station. (station_clock station).seen ≡ scene [] [] []) }
    ensures kept { IfOk result (λ station. IsKept (station_clock station)) }
    ensures failing { IfOk result (λ station. fails_at station ≡ failing.now) }
    ensures calls { IfOk result (λ station. calls_of station ≡ 0) }
    ensures attached { IfOk result (λ station. is_attached station ≡ false) }
    ensures most { IfOk result (λ station. station.most ≡ 2 ^ 64 - 1) }
{
    Ok(MemStation::new(alloc, failing.to_vec(alloc)?))
}

/// The status with which the program ends for these words.
pub fn end_of<H: Shelf, S: Source, T: Station>(
    alloc: Global,
    words: &[&str],
    shelf: &mut H,
    source: &mut S,
    station: &mut T,
) -> Result<u8, Fail> {
    let list = word_list(alloc, words)?;
    Ok(fleet_main(alloc, &list, shelf, source, station).code())
}

/// The status with which a session over the plan of these texts ends that hears these reports.
pub fn session<T: Station>(
    alloc: Global,
    texts: Texts<'_>,
    reports: &[u8],
    station: &mut T,
) -> Result<u8, Fail> {
    session_with(alloc, texts, &[], reports, station)
}

/// The same with these words behind the names.
pub fn session_with<T: Station>(
    alloc: Global,
    texts: Texts<'_>,
    options: &[&str],
    reports: &[u8],
    station: &mut T,
) -> Result<u8, Fail> {
    let mut shelf = shelf_of(alloc, texts, &[])?;
    let mut source = MemSource::new(alloc, reports.to_vec(alloc)?, Vec::new(alloc));
    let mut words = word_list(alloc, &["run", "M", "P", "J"])?;
    push_words(alloc, &mut words, options)?;
    Ok(fleet_main(alloc, &words, &mut shelf, &mut source, station).code())
}

/// The same over the crossing, with the first reports of a script.
pub fn play<T: Station>(
    alloc: Global,
    script: &Script,
    count: usize,
    station: &mut T,
) -> Result<u8, Fail> {
    let reports = script.reports.get(..count).ok_or("reports")?;
    session(alloc, CROSSING, &joined(alloc, reports)?, station)
}

/// What was sent behind so many bytes.
pub fn sent_behind(alloc: Global, station: &MemStation, front: usize) -> Result<Vec<u8>, Fail>
    ensures within { OnOk result (front ≤ length (station_clock station.now).seen.sent) }
    ensures sent { IfOk result (λ bytes. bytes.items ≡ drop front (station_clock station.now).seen.sent) }
{
    let sent = station.sent().get(front..).ok_or("no less than before")?;
    Ok(sent.to_vec(alloc)?)
}

/// What the next session sends that hears these reports. It must end well.
pub fn next_session(
    alloc: Global,
    texts: Texts<'_>,
    reports: &[u8],
    station: &mut MemStation,
) -> Result<Vec<u8>, Fail> {
    let before = station.sent().len();
    if session(alloc, texts, reports, station)? != 0 {
        return Err(Fail::from("a session that ends well"));
    }
    sent_behind(alloc, station, before)
}

/// The bytes of side A.
pub fn side_a(alloc: Global, station: &MemStation) -> Result<Vec<u8>, Fail>
    ensures { IfOk result (λ bytes. bytes.items ≡ side_of DiskSide.A (station_clock station.now).seen) }
{
    Ok(station.side(DiskSide::A).to_vec(alloc)?)
}

/// The bytes of side B.
pub fn side_b(alloc: Global, station: &MemStation) -> Result<Vec<u8>, Fail>
    ensures { IfOk result (λ bytes. bytes.items ≡ side_of DiskSide.B (station_clock station.now).seen) }
{
    Ok(station.side(DiskSide::B).to_vec(alloc)?)
}

/// Pieces, one behind another.
pub fn joined(alloc: Global, pieces: &[&[u8]]) -> Result<Vec<u8>, Fail>
    ensures { IfOk result (λ whole. whole.items ≡ flat_map (λ piece. piece.now) pieces.now) }
{
    Ok(pieces.concat(alloc)?)
}
