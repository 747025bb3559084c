// The fields of a line that tells a task.
ghost use Rattle.std.specs.Prelude.{◌≡◌, ◌+◌, ◌<◌, ℕ, List, length, map, slice_index_or, [], IfOk, IfSome, IfNone, IsTrue, ◌↔◌};
ghost use Rattle.map_text.specs.ScenText.{fields_of, HasFields, IsCount, IsTaskLine};
ghost use Rattle.map_text.specs.TaskLines.{AreFilled, IsCellAt, IsTaskOf, HasBadCount, TaskFaultIs};

use crate::scenario::{ScenError, ScenFault, ScenKind, Task};
use fleet_base::{Cell, read_number};
use std::alloc::{AllocError, Global};

/// Reads the task that a line tells; the line's number is for the fault.
pub fn read_task(alloc: Global, line: &[u8], number: u32) -> Result<Task, ScenError>
    ensures ok { IfOk result (IsTaskLine line.now) }
    ensures err { TaskFaultIs line.now number result }
{
    let Ok(fields) = split(alloc, line) else {
        return Err(ScenError::Memory);
    };
    if !are_filled(&fields) {
        return Err(fault(number, ScenKind::Fields));
    }
    match task_of(&fields) {
        Some(task) => Ok(task),
        None => Err(fault(number, ScenKind::Number)),
    }
}

/// A fault of this kind at the line of this number.
pub fn fault(line: u32, kind: ScenKind) -> ScenError
    ensures { result ≡ ScenError.Fault (record { line = line; kind = kind }) }
{
    ScenError::Fault(ScenFault { line, kind })
}

// The fields of a line, which tabs part.
fn split(alloc: Global, line: &[u8]) -> Result<Vec<&[u8]>, AllocError>
    ensures { IfOk result (λ fields. map (λ field. field.now) fields.items ≡ fields_of line.now) }
{
    line.split(|byte| *byte == b'\t').collect(alloc)
}

// Whether there are nine fields, none of them empty.
fn are_filled(fields: &[&[u8]]) -> bool
    ensures { IsTrue result ↔ AreFilled (map (λ field. field.now) fields.now) }
{
    fields.len() == 9 && fields.iter().all(|field| !field.is_empty())
}

// The task of nine fields.
fn task_of(fields: &[&[u8]]) -> Option<Task>
    requires { length fields.now ≡ 9 }
    ensures some { IfSome result (IsTaskOf (map (λ field. field.now) fields.now)) }
    ensures none { IfNone result (HasBadCount (map (λ field. field.now) fields.now) 2 8) }
{
    let width = number_at(fields, 2)?;
    let height = number_at(fields, 3)?;
    let start = cell_at(fields, 4, 5)?;
    let goal = cell_at(fields, 6, 7)?;
    Some(Task {
        width,
        height,
        start,
        goal,
    })
}

// The cell whose column and row stand at these places.
fn cell_at(fields: &[&[u8]], col: usize, row: usize) -> Option<Cell>
    requires col { col < length fields.now }
    requires row { (row ≡ col + 1) × (row < length fields.now) }
    ensures some { IfSome result (IsCellAt (map (λ field. field.now) fields.now) col row) }
    ensures none { IfNone result (HasBadCount (map (λ field. field.now) fields.now) col (row + 1)) }
{
    let col = number_at(fields, col)?;
    let row = number_at(fields, row)?;
    Some(Cell { row, col })
}

// The number below 2^32 that a field is.
fn number_at(fields: &[&[u8]], at: usize) -> Option<u32>
    requires { at < length fields.now }
    ensures some { IfSome result (IsCount (slice_index_or (map (λ field. field.now) fields.now) at [])) }
    ensures none { IfNone result ((n : ℕ) →
        IsCount (slice_index_or (map (λ field. field.now) fields.now) at []) n → ⊥) }
{
    count(fields[at])
}

// The number below 2^32 that a field is, without a leading zero.
fn count(field: &[u8]) -> Option<u32>
    ensures some { IfSome result (IsCount field.now) }
    ensures none { IfNone result ((n : ℕ) → IsCount field.now n → ⊥) }
{
    u32::try_from(read_number(field)?).ok()
}
