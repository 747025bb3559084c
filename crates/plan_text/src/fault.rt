ghost use Rattle.std.specs.Prelude.{◌≡◌};
ghost use Rattle.plan_text.specs.declared.fault.PlanError.TheVariants as plan_error;
ghost use Rattle.plan_text.specs.declared.fault.WritePlanError.TheVariants as write_error;

use fleet_base::Memory;
use thiserror::Error;

/// What is wrong at the place of a fault.
#[derive(Clone, Copy, Debug, PartialEq, Eq)]
pub enum PlanKind {
    /// The line leaves what a line of its robot begins with: `Agent i: `.
    Label,
    /// The line leaves the cells behind the label.
    Path,
    /// The text has no line, or empty lines only.
    Empty,
}

/// Where a text leaves the grammar of plans.
#[derive(Clone, Copy, Debug, PartialEq, Eq, Error)]
#[error("line {line} is no line of a plan from column {column} on")]
pub struct PlanFault {
    /// The line, from 1.
    pub line: u32,
    /// The column in bytes, from 1: 1 plus the length of the longest front of the line that begins a line of its robot.
    pub column: u32,
    /// What the text leaves there.
    pub kind: PlanKind,
}

/// Why a text is not read as a plan.
#[derive(Clone, Copy, Debug, PartialEq, Eq, Error)]
pub enum PlanError {
    /// The text is not in the grammar.
    #[error("{0}")]
    Fault(PlanFault),
    /// Want of memory.
    #[error("out of memory")]
    Memory,
}

impl From<Memory> for PlanError {
    ghost from_gives = { λ _ e. e ≡ plan_error.Memory };

    fn from(_memory: Memory) -> PlanError {
        PlanError::Memory
    }
}

/// Why a plan is not written.
#[derive(Clone, Copy, Debug, PartialEq, Eq, Error)]
pub enum WritePlanError {
    /// The first robot whose path is empty or has a number of more than four digits.
    #[error("the path of robot {robot} has no text")]
    Wide { robot: u32 },
    #[error("out of memory")]
    Memory,
}

impl From<Memory> for WritePlanError {
    ghost from_gives = { λ _ e. e ≡ write_error.Memory };

    fn from(_memory: Memory) -> WritePlanError {
        WritePlanError::Memory
    }
}
