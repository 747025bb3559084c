ghost use Rattle.std.specs.Prelude.{◌≡◌};

use fleet_base::{Memory, RobotList};
use thiserror::Error;

/// A limit that a plan is above.
#[derive(Clone, Copy, Debug, PartialEq, Eq)]
pub enum Large {
    Robots,
    Ticks,
    Visits,
}

/// Why a plan cannot be carried out. Robots and ticks are counted from 0.
#[derive(Debug, Drop)]
pub enum Unsound {
    /// The plan is above a limit, with the number that is above it.
    TooLarge { which: Large, count: u64 },
    /// The robot is listed in a cell that is not free.
    Blocked { robot: u32, tick: u64 },
    /// The robot enters a cell at the tick that is no neighbour of the one before.
    Jump { robot: u32, tick: u64 },
    /// Two robots are in one cell.
    Share { a: u32, b: u32, tick: u64 },
    /// Two robots enter each other's cells at the tick.
    Swap { a: u32, b: u32, tick: u64 },
    /// Each robot enters at the tick the former cell of the next one in the list, and the last one that of the first.
    Rotation { robots: RobotList, tick: u64 },
}

/// Why `check` answers no plan.
#[derive(Debug, Drop, Error)]
pub enum CheckError {
    #[error("the plan cannot be carried out")]
    Unsound(Unsound),
    #[error("out of memory")]
    Memory,
}

impl From<Memory> for CheckError {
    ghost use Rattle.plan_check.specs.declared.fault.CheckError.TheVariants as CheckError;

    ghost from_gives = { λ memory e. e ≡ CheckError.Memory };

    fn from(_: Memory) -> CheckError {
        CheckError::Memory
    }
}
