ghost use Rattle.std.specs.Prelude.{◌≡◌};
ghost use Rattle.map_text.specs.declared.scenario.ScenError.TheVariants as scen_error;

use fleet_base::{Cell, Items, Memory};
use thiserror::Error;

/// What a robot is to do: on a map of this width and height, to go from its start to its goal.
#[derive(Clone, Copy, Debug, PartialEq, Eq)]
pub struct Task {
    pub width: u32,
    pub height: u32,
    pub start: Cell,
    pub goal: Cell,
}

/// Tasks, the first for robot 0.
pub type TaskList = Items<Task>;

/// What is wrong with a line of a text that is no scenario.
#[derive(Clone, Copy, Debug, PartialEq, Eq)]
pub enum ScenKind {
    /// The first line is not `version 1` or `version 1.0`.
    Version,
    /// A line has not nine fields parted by one tab each, or an empty one.
    Fields,
    /// A size, a column or a row is no number below 2^32.
    Number,
    /// There is no task.
    Empty,
}

/// The first line of a text at which it is no scenario, counted from 1, and what is wrong there.
#[derive(Clone, Copy, Debug, PartialEq, Eq, Error)]
#[error("line {line} is no line of a scenario")]
pub struct ScenFault {
    pub line: u32,
    pub kind: ScenKind,
}

/// Why a text is not read as a scenario.
#[derive(Clone, Copy, Debug, PartialEq, Eq, Error)]
pub enum ScenError {
    /// The text is no scenario.
    #[error("{0}")]
    Fault(ScenFault),
    /// Memory ran out.
    #[error("out of memory")]
    Memory,
}

impl From<Memory> for ScenError {
    ghost from_gives = { λ _ e. e ≡ scen_error.Memory };

    fn from(_: Memory) -> ScenError {
        ScenError::Memory
    }
}
