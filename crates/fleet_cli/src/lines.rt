// The lines of refusals.
ghost use Rattle.std.specs.Prelude.{◌≡◌, ◌++◌, codes, OnOk};
ghost use Rattle.fleet_cli.specs.Lines.{fault_line, unsound_line, paper_word, map_word, scen_word, task_word, plan_word, large_word};
ghost use Rattle.fleet_base.specs.Bytes.{fields};

use crate::fault::{Fault, Paper};
use fleet_base::{Memory, Text, push_bytes, push_field, push_fields};
use map_text::{MapKind, ScenKind};
use path_planner::TaskWhy;
use plan_check::{Large, Unsound};
use plan_text::PlanKind;

/// Appends the line of a refusal, without its end.
pub fn push_fault(out: &mut Text, fault: &Fault) -> Result<(), Memory>
    ensures { OnOk result (out.new ≡ out.old ++ fault_line fault.now) }
{
    match fault {
        Fault::Usage => push_bytes(out, b"fault usage"),
        Fault::Long { paper, length } => {
            push_words(out, b"fault long ", paper_word(*paper))?;
            push_fields(out, &[*length])
        }
        Fault::Unread { paper } => push_words(out, b"fault read ", paper_word(*paper)),
        Fault::Map(fault) => {
            push_line(out, b"fault map", &[u64::from(fault.line)])?;
            push_words(out, b" ", map_word(fault.kind))
        }
        Fault::Plan(fault) => {
            push_line(
                out,
                b"fault plan",
                &[u64::from(fault.line), u64::from(fault.column)],
            )?;
            push_words(out, b" ", plan_word(fault.kind))
        }
        Fault::Unsound(unsound) => push_unsound(out, unsound),
        Fault::Pairs { count } => push_line(out, b"fault pairs", &[*count]),
        Fault::Scen(fault) => {
            push_line(out, b"fault scen", &[u64::from(fault.line)])?;
            push_words(out, b" ", scen_word(fault.kind))
        }
        Fault::BadTask { robot, why } => {
            push_line(out, b"fault task", &[u64::from(*robot)])?;
            push_words(out, b" ", task_word(*why))
        }
        Fault::NoPath { robot } => push_line(out, b"fault nopath", &[u64::from(*robot)]),
    }
}

/// Appends the line of a plan that cannot be carried out.
fn push_unsound(out: &mut Text, unsound: &Unsound) -> Result<(), Memory>
    ensures { OnOk result (out.new ≡ out.old ++ unsound_line unsound.now) }
{
    match unsound {
        Unsound::TooLarge { which, count } => {
            push_words(out, b"fault large ", large_word(*which))?;
            push_fields(out, &[*count])
        }
        Unsound::Blocked { robot, tick } => {
            push_line(out, b"fault blocked", &[u64::from(*robot), *tick])
        }
        Unsound::Jump { robot, tick } => push_line(out, b"fault jump", &[u64::from(*robot), *tick]),
        Unsound::Share { a, b, tick } => {
            push_line(out, b"fault share", &[u64::from(*a), u64::from(*b), *tick])
        }
        Unsound::Swap { a, b, tick } => {
            push_line(out, b"fault swap", &[u64::from(*a), u64::from(*b), *tick])
        }
        Unsound::Rotation { robots, tick } => {
            push_line(out, b"fault rotation", &[*tick])?;
            push_robots(out, robots.as_slice())
        }
    }
}

/// Appends the numbers of robots, each with a space in front.
fn push_robots(out: &mut Text, robots: &[u32]) -> Result<(), Memory>
    ensures { OnOk result (out.new ≡ out.old ++ fields robots.now) }
{
    for robot in robots {
        push_field(out, u64::from(*robot))?;
    }
    Ok(())
}

/// Appends two pieces.
fn push_words(out: &mut Text, front: &[u8], word: &[u8]) -> Result<(), Memory>
    ensures { OnOk result (out.new ≡ out.old ++ (front.now ++ word.now)) }
{
    push_bytes(out, front)?;
    push_bytes(out, word)
}

/// Appends a piece and numbers.
fn push_line(out: &mut Text, front: &[u8], numbers: &[u64]) -> Result<(), Memory>
    ensures { OnOk result (out.new ≡ out.old ++ (front.now ++ fields numbers.now)) }
{
    push_bytes(out, front)?;
    push_fields(out, numbers)
}

fn paper_word(paper: Paper) -> &'static [u8]
    ensures { result.now ≡ paper_word paper }
{
    match paper {
        Paper::Map => b"map",
        Paper::Plan => b"plan",
        Paper::Scen => b"scen",
    }
}

fn map_word(kind: MapKind) -> &'static [u8]
    ensures { result.now ≡ map_word kind }
{
    match kind {
        MapKind::Octile => b"type",
        MapKind::Height => b"height",
        MapKind::Width => b"width",
        MapKind::Size => b"size",
        MapKind::Map => b"map",
        MapKind::Short => b"short",
        MapKind::Row => b"row",
        MapKind::Char => b"char",
        MapKind::More => b"more",
    }
}

fn scen_word(kind: ScenKind) -> &'static [u8]
    ensures { result.now ≡ scen_word kind }
{
    match kind {
        ScenKind::Version => b"version",
        ScenKind::Fields => b"fields",
        ScenKind::Number => b"number",
        ScenKind::Empty => b"empty",
    }
}

fn task_word(why: TaskWhy) -> &'static [u8]
    ensures { result.now ≡ task_word why }
{
    match why {
        TaskWhy::Size => b"size",
        TaskWhy::Start => b"start",
        TaskWhy::Goal => b"goal",
        TaskWhy::SameStart => b"samestart",
        TaskWhy::SameGoal => b"samegoal",
    }
}

fn plan_word(kind: PlanKind) -> &'static [u8]
    ensures { result.now ≡ plan_word kind }
{
    match kind {
        PlanKind::Label => b"label",
        PlanKind::Path => b"path",
        PlanKind::Empty => b"empty",
    }
}

fn large_word(which: Large) -> &'static [u8]
    ensures { result.now ≡ large_word which }
{
    match which {
        Large::Robots => b"robots",
        Large::Ticks => b"ticks",
        Large::Visits => b"visits",
    }
}
