// The report of lateness.
ghost use Rattle.std.specs.Prelude.{◌≡◌, ◌++◌, ◌∷◌, ◌-◌, [], false, length, sum_by, OnOk, OnErr, IsErrOf};
ghost use Rattle.fleet_base.specs.Bytes.{AppendsFront, IsPrefix};
ghost use Rattle.archive_keep.specs.Faults.{HasCause};
ghost use Rattle.archive_keep.specs.Report.{late_of, line_of, robot_text, part_of, robots_text, lateness_of};
ghost use Rattle.archive_keep.specs.Storing.{AreKept};

use crate::{EndList, KeepFault, Keeper, RobotEnd};
use fleet_base::limits::ROBOTS;
use fleet_base::{Memory, Text, push_bytes, push_fields};
use std::alloc::Global;

/// Appends the report of an archive: for each robot that has rows `late ROBOT RUNS PLANNED ACTUAL LATE`, how many they
/// are, the sums of their planned and of their actual ticks, and by how many ticks they were late together, then
/// `runs N`. An early run takes nothing off. After a fault some of the report is missing at the end.
pub fn lateness<K: Keeper>(alloc: Global, keeper: &mut K, out: &mut Text) -> Result<(), KeepFault>
    ensures report { K.tells → OnOk result (out.new ≡ out.old ++ lateness_of (K.table keeper.old)) }
    ensures front { K.tells → OnErr result (AppendsFront out.old out.new (lateness_of (K.table keeper.old))) }
    ensures text { IsPrefix out.old out.new }
    ensures rows { K.tells → K.table keeper.new ≡ K.table keeper.old }
    ensures attached { K.attached keeper.new ≡ K.attached keeper.old }
    ensures early { K.attached keeper.old ≡ false → IsErrOf result KeepFault.Failed }
    ensures cause { HasCause (K.faults keeper.old) (K.faults keeper.new) result }
{
    push_robots(alloc, keeper, out)?;
    let runs = keeper.runs()?;
    push_line(out, b"runs", &[runs])?;
    Ok(())
}

/// Appends the line of each robot that has rows.
fn push_robots<K: Keeper>(alloc: Global, keeper: &mut K, out: &mut Text) -> Result<(), KeepFault>
    ensures robots { K.tells → OnOk result (out.new ≡ out.old ++ robots_text (K.table keeper.old)) }
    ensures front { K.tells → OnErr result (AppendsFront out.old out.new (robots_text (K.table keeper.old))) }
    ensures text { IsPrefix out.old out.new }
    ensures rows { K.tells → K.table keeper.new ≡ K.table keeper.old }
    ensures attached { K.attached keeper.new ≡ K.attached keeper.old }
    ensures early { K.attached keeper.old ≡ false → IsErrOf result KeepFault.Failed }
    ensures cause { HasCause (K.faults keeper.old) (K.faults keeper.new) result }
{
    for robot in 0..ROBOTS {
        push_ends_of(alloc, keeper, robot, out)?;
    }
    Ok(())
}

/// Appends the line of a robot, if it has rows.
fn push_ends_of<K: Keeper>(
    alloc: Global,
    keeper: &mut K,
    robot: u32,
    out: &mut Text,
) -> Result<(), KeepFault>
    ensures part { K.tells → OnOk result (out.new ≡ out.old ++ part_of (K.table keeper.old) robot) }
    ensures front { K.tells → OnErr result (AppendsFront out.old out.new (part_of (K.table keeper.old) robot)) }
    ensures text { IsPrefix out.old out.new }
    ensures rows { K.tells → K.table keeper.new ≡ K.table keeper.old }
    ensures attached { K.attached keeper.new ≡ K.attached keeper.old }
    ensures early { K.attached keeper.old ≡ false → IsErrOf result KeepFault.Failed }
    ensures cause { HasCause (K.faults keeper.old) (K.faults keeper.new) result }
{
    let ends = keeper.rows(alloc, robot)?;
    push_robot(out, robot, &ends)?;
    Ok(())
}

/// Appends the line of a robot with these ends; for want of memory some of it is missing at the end.
fn push_robot(out: &mut Text, robot: u32, ends: &EndList) -> Result<(), Memory>
    requires { AreKept ends.now }
    ensures ok { OnOk result (out.new ≡ out.old ++ robot_text robot ends.now) }
    ensures err { OnErr result (AppendsFront out.old out.new (robot_text robot ends.now)) }
{
    if ends.is_empty() {
        return Ok(());
    }
    let sums = Sums::of(ends.as_slice());
    push_line(
        out,
        b"late",
        &[
            u64::from(robot),
            sums.runs,
            sums.planned,
            sums.actual,
            sums.late,
        ],
    )
}

/// Appends a line; for want of memory some of it is missing at the end.
fn push_line(out: &mut Text, words: &[u8], numbers: &[u64]) -> Result<(), Memory>
    ensures ok { OnOk result (out.new ≡ out.old ++ line_of words.now numbers.now) }
    ensures err { OnErr result (AppendsFront out.old out.new (line_of words.now numbers.now)) }
{
    push_bytes(out, words)?;
    push_fields(out, numbers)?;
    out.push(b'\n')
}

/// How many ends a robot has, and what they come to together.
#[derive(Clone, Copy)]
struct Sums {
    runs: u64,
    planned: u64,
    actual: u64,
    late: u64,
}

impl Sums {
    fn of(ends: &[RobotEnd]) -> Sums
        requires { AreKept ends.now }
        ensures runs { result.runs ≡ length ends.now }
        ensures planned { result.planned ≡ sum_by (λ ticks. ticks.planned) ends.now }
        ensures actual { result.actual ≡ sum_by (λ ticks. ticks.actual) ends.now }
        ensures late { result.late ≡ sum_by late_of ends.now }
    {
        let mut sums = Sums {
            runs: 0,
            planned: 0,
            actual: 0,
            late: 0,
        };
        for ticks in ends {
            sums.runs += 1;
            sums.planned += ticks.planned;
            sums.actual += ticks.actual;
            sums.late += ticks.actual.saturating_sub(ticks.planned);
        }
        sums
    }
}
