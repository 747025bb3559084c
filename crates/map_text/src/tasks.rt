// A whole scenario.
ghost use Rattle.std.specs.Prelude.{◌≡◌, ◌+◌, ◌<◌, ◌^◌, ℕ, List, [], ◌∷◌, IfOk, IfSome, IfNone, IsSomeAnd, length, slice_get};
ghost use Rattle.fleet_base.specs.Bytes.{file_lines};
ghost use Rattle.map_text.specs.declared.scenario.Task.{Task};
ghost use Rattle.map_text.specs.ScenText.{IsVersion, IsScenText};
ghost use Rattle.map_text.specs.ScenFaults.{ScenFaultIsFirst, GivesTasks};
ghost use Rattle.map_text.specs.TaskLines.{TakesTasks, TasksFaultIs};

use crate::fields::{fault, read_task};
use crate::lines::skip_line;
use crate::read::check_end;
use crate::scenario::{ScenError, ScenKind, TaskList};
use fleet_base::first_line;
use std::alloc::Global;

/// Reads a scenario: a line `version 1` or `version 1.0`, and then a task a line, one at least. A task has nine
/// fields parted by one tab each, none of them empty. The third field to the eighth are numbers below 2^32 without a
/// leading zero: the width and the height of the map, the column and the row of the start, and the column and the row
/// of the goal. The other fields are skipped. A CR at the end of a line is dropped, the last line may lack its LF, and
/// empty lines after the last task are dropped.
///
/// Any other text is refused with its first line that is not as it should be. `Empty` comes at the second line where
/// nothing but empty lines follows the version. A line of the wrong fields is refused for them, before its numbers.
pub fn read_scen(alloc: Global, bytes: &[u8]) -> Result<TaskList, ScenError>
    requires { length bytes.now < 2 ^ 32 }

    // What is read are the tasks that the text tells.
    ensures read { IfOk result (IsScenText bytes.now) }

    // What tells tasks is read, unless memory runs out.
    ensures only { (tasks : List Task) → IsScenText bytes.now tasks → GivesTasks tasks result }

    // A fault is the first one.
    ensures fault { ScenFaultIsFirst (file_lines bytes.now) result }
{
    let Some(rest) = skip_version(bytes) else {
        return Err(fault(1, ScenKind::Version));
    };
    let (tasks, rest) = read_tasks(alloc, rest)?;
    let taken = tasks.as_slice().len() as u32;
    match check_end(rest, 1 + taken) {
        Ok(()) if taken == 0 => Err(fault(2, ScenKind::Empty)),
        Ok(()) => Ok(tasks),
        Err(_) => Err(fault(2 + taken, ScenKind::Fields)),
    }
}

// The text after the version.
fn skip_version(bytes: &[u8]) -> Option<&[u8]>
    ensures some { IfSome result (λ rest. (line : List ℕ) × IsVersion line × (file_lines bytes.now ≡ line ∷ file_lines rest.now)) }
    ensures none { IfNone result (IsSomeAnd (slice_get (file_lines bytes.now) 0) IsVersion → ⊥) }
{
    skip_line(bytes, b"version 1").or(skip_line(bytes, b"version 1.0"))
}

// Reads tasks up to the first empty line or the end, below the one line of the version, and gives the text that is left.
fn read_tasks(alloc: Global, bytes: &[u8]) -> Result<(TaskList, &[u8]), ScenError>
    requires { length (file_lines bytes.now) + 1 < 2 ^ 32 }
    ensures taken { IfOk result (λ found.
        TakesTasks (file_lines bytes.now) (file_lines found.1.now) found.0) }
    ensures left { IfOk result (λ found.
        IfSome (slice_get (file_lines found.1.now) 0) (λ line. line ≡ [])) }
    ensures fault { TasksFaultIs (file_lines bytes.now) result }
{
    let mut tasks = TaskList::new(alloc);
    let mut rest = bytes;
    let mut number = 1;
    while let Some((line, after)) = first_line(rest) {
        if line.is_empty() {
            return Ok((tasks, rest));
        }
        number += 1;
        tasks.push(read_task(alloc, line, number)?)?;
        rest = after;
    }
    Ok((tasks, rest))
}
