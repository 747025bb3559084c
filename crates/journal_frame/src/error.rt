ghost use Rattle.std.specs.Prelude.{◌≡◌};
ghost use Rattle.journal_frame.specs.declared.error.FrameError.TheVariants.{Memory as OutOfMemory};

use fleet_base::Memory;
use thiserror::Error;

/// Why a payload was not read.
#[derive(Clone, Copy, Debug, PartialEq, Eq, Error)]
pub enum FrameError {
    /// No value has these bytes as its payload.
    #[error("the payload is not in the grammar")]
    NotInGrammar,
    /// Want of memory.
    #[error("out of memory")]
    Memory,
}

impl From<Memory> for FrameError {
    ghost from_gives = { λ _ e. e ≡ OutOfMemory };

    fn from(_: Memory) -> FrameError {
        FrameError::Memory
    }
}
