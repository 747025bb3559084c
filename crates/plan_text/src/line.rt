ghost use Rattle.std.specs.Prelude.{◌≡◌, ◌<◌, ◌≤◌, ◌+◌, ◌^◌, ◌≢◌, length, take, slice_index, IfOk};
ghost use Rattle.plan_text.specs.PlanText.{IsPathText, IsPlanLine, label_of};
ghost use Rattle.plan_text.specs.PlanErrors.{StopIs, LineFaultIs};

use crate::fault::{PlanError, PlanFault, PlanKind};
use crate::place::Place;
use crate::spelling::push_label;
use fleet_base::{Cell, Text};
use std::alloc::Global;

/// Why the text of a path is not read.
#[derive(Clone, Copy)]
pub enum Stop {
    /// So many bytes are the longest front that begins a path's text.
    At(usize),
    Memory,
}

/// The path that a line says of a robot.
pub fn read_line(alloc: Global, robot: u32, line: &[u8]) -> Result<Vec<Cell>, PlanError>
    requires number { robot + 1 < 2 ^ 32 }
    requires line { length line.now + 1 < 2 ^ 32 }
    ensures read { IfOk result (λ path. IsPlanLine robot line.now path.items) }
    ensures fault { LineFaultIs robot line.now result }
{
    let mut label = Text::new(alloc);
    push_label(&mut label, robot)?;
    let label_len = label.as_slice().len();
    let same = common_len(line, label.as_slice());
    if same < label_len {
        return Err(fault_at(robot, same, PlanKind::Label));
    }
    match read_path(alloc, &line[same..]) {
        Ok(path) => Ok(path),
        Err(Stop::At(n)) => Err(fault_at(robot, same + n, PlanKind::Path)),
        Err(Stop::Memory) => Err(PlanError::Memory),
    }
}

/// The fault behind so many bytes of a robot's line.
fn fault_at(robot: u32, n: usize, kind: PlanKind) -> PlanError
    requires number { robot + 1 < 2 ^ 32 }
    requires place { n + 1 < 2 ^ 32 }
    ensures { result ≡ PlanError.Fault (record { line = robot + 1; column = n + 1; kind = kind }) }
{
    PlanError::Fault(PlanFault {
        line: robot + 1,
        column: n as u32 + 1,
        kind,
    })
}

/// The cells that stand behind a label.
fn read_path(alloc: Global, text: &[u8]) -> Result<Vec<Cell>, Stop>
    ensures read { IfOk result (λ path. IsPathText text.now path.items) }
    ensures stop { StopIs text.now result }
{
    let mut path = Vec::new(alloc);
    let mut place = Place::Start;
    for (n, byte) in text.iter().enumerate() {
        place = match place.after(*byte) {
            Some(next) => next,
            None => return Err(Stop::At(n)),
        };
        if let Place::Closed(cell) = place {
            if path.push(cell).is_err() {
                return Err(Stop::Memory);
            }
        }
    }
    if place.is_end() {
        Ok(path)
    } else {
        Err(Stop::At(text.len()))
    }
}

/// The length of the longest common front.
fn common_len(a: &[u8], b: &[u8]) -> usize
    ensures in_a { result ≤ length a.now }
    ensures in_b { result ≤ length b.now }
    ensures same { take result a.now ≡ take result b.now }
    ensures differs { result < length a.now → result < length b.now → slice_index a.now result ≢ slice_index b.now result }
{
    let shorter = a.len().min(b.len());
    for n in 0..shorter {
        if a[n] != b[n] {
            return n;
        }
    }
    shorter
}
