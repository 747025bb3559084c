// Runs that are kept in memory.
ghost use Rattle.std.specs.Prelude.{◌≡◌, ◌<◌, ◌≤◌, map, filter, length, bytes_eq, slice_index_or, All, Ok, IfOk, IfSome, IfNone, OnOk, OnErr, is_some};
ghost use Rattle.std.specs.List.Sorted.{IsPermutation, IsSortedByKey};
ghost use Rattle.std.specs.Ordering.{nat_cmp};
ghost use Rattle.std.specs.Cmp.Lexicographic.{slice_cmp};
ghost use Rattle.archive_keep.specs.Rows.{IsStorable, IsEnd, rows_of, rows_with};
ghost use Rattle.archive_keep.specs.Storing.{Stores, AreByName, AreKept};
ghost use Rattle.archive_keep.specs.Memory.{AreApart, AreRuns, table_of, is_named};
ghost use Rattle.archive_keep.specs.Named.{row_of};

use crate::{EndList, RUNS, RobotEnd, Stored};
use fleet_base::{Items, Memory, Text};
use std::alloc::Global;

/// A run with its name and its ends, by robot.
#[derive(Drop)]
pub struct KeptRun {
    pub run: Text,
    pub ends: EndList,
}

/// The end of a robot in the run of a name.
#[derive(Clone, Copy)]
struct NamedEnd<'a> {
    run: &'a [u8],
    ticks: RobotEnd,
}

impl KeptRun {
    fn new(alloc: Global, run: &[u8], ends: &EndList) -> Result<KeptRun, Memory>
        ensures { IfOk result (λ kept. kept ≡ record { run = run.now; ends = ends.now }) }
    {
        Ok(KeptRun {
            run: Items::from_slice(alloc, run)?,
            ends: Items::from_slice(alloc, ends.as_slice())?,
        })
    }

    /// The end of a robot.
    fn end_of(&self, robot: u32) -> Option<RobotEnd>
        ensures some { IfSome result (λ ticks. (robot < length self.now.ends) × (ticks ≡ slice_index_or self.now.ends robot ticks)) }
        ensures none { IfNone result (length self.now.ends ≤ robot) }
    {
        match self.ends.as_slice().get(robot as usize) {
            Some(ticks) => Some(*ticks),
            None => None,
        }
    }
}

/// The ends of the run of a name.
pub fn find<'a>(runs: &'a [KeptRun], run: &[u8]) -> Option<&'a EndList>
    ensures named { is_some result ≡ is_named runs.now run.now }
    ensures rows { AreApart runs.now → IfSome result (λ ends. filter (λ row. bytes_eq row.run run.now) (table_of runs.now) ≡ rows_of run.now ends.now) }
{
    for kept in runs {
        if kept.run.as_slice() == run {
            return Some(&kept.ends);
        }
    }
    None
}

/// Stores a run, once for a name.
pub fn add(
    alloc: Global,
    runs: &mut Vec<KeptRun>,
    run: &[u8],
    ends: &EndList,
) -> Result<Stored, Memory>
    requires runs { AreRuns runs.old.items }
    requires ends { IsStorable ends.now }
    ensures stores { IfOk result (λ stored. Stores run.now ends.now (table_of runs.old.items) (table_of runs.new.items) (Ok stored)) }
    ensures err { OnErr result (runs.new.items ≡ runs.old.items) }
    ensures runs { AreRuns runs.new.items }
{
    if find(runs, run).is_some() {
        return Ok(Stored::Kept);
    }
    if runs.len() as u64 >= RUNS {
        return Ok(Stored::Full);
    }
    let kept = KeptRun::new(alloc, run, ends)?;
    runs.push(kept)?;
    Ok(Stored::New)
}

/// The ends of a robot, by the names of the runs in the order of bytes.
pub fn ends_by_name(alloc: Global, runs: &[KeptRun], robot: u32) -> Result<EndList, Memory>
    requires { AreRuns runs.now }
    ensures ends { IfOk result (AreByName (rows_with robot (table_of runs.now))) }
    ensures bounds { IfOk result AreKept }
{
    let mut named = ends_of_robot(alloc, runs, robot)?;
    sort_by_name(&mut named)?;
    let ends = without_names(alloc, &named)?;
    Ok(ends)
}

/// The ends of a robot, in the order of the runs.
fn ends_of_robot<'a>(
    alloc: Global,
    runs: &'a [KeptRun],
    robot: u32,
) -> Result<Vec<NamedEnd<'a>>, Memory>
    requires { All (λ kept. IsStorable kept.ends) runs.now }
    ensures rows { IfOk result (λ named. map (row_of robot) named.items ≡ rows_with robot (table_of runs.now)) }
    ensures few { IfOk result (λ named. length named.items ≤ length runs.now) }
    ensures within { IfOk result (λ named. All (λ end. IsEnd end.ticks) named.items) }
{
    let mut named = Vec::new(alloc);
    for kept in runs {
        if let Some(ticks) = kept.end_of(robot) {
            named.push(NamedEnd {
                run: kept.run.as_slice(),
                ticks,
            })?;
        }
    }
    Ok(named)
}

/// Brings them into the order of their runs' names, byte by byte.
fn sort_by_name(named: &mut Vec<NamedEnd<'_>>) -> Result<(), Memory>
    ensures all { IsPermutation named.old.items named.new.items }
    ensures ascending { OnOk result (IsSortedByKey (λ end. end.run.now) (slice_cmp nat_cmp) named.new.items) }
{
    named.sort_by_key(|end| end.run)?;
    Ok(())
}

/// The ends alone.
fn without_names(alloc: Global, named: &[NamedEnd<'_>]) -> Result<EndList, Memory>
    ensures { IfOk result (λ ends. ends ≡ map (λ end. end.ticks) named.now) }
{
    let mut ends = Items::new(alloc);
    for end in named {
        ends.push(end.ticks)?;
    }
    Ok(ends)
}
