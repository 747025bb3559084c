ghost use Rattle.std.specs.Prelude.{◌≡◌};

use fleet_base::Memory;
use thiserror::Error;

/// Why `pairs` answers no table.
#[derive(Clone, Copy, Debug, PartialEq, Eq, Error)]
pub enum PairsError {
    /// The plan has more pairs than there may be: so many.
    #[error("{count} pairs are too many")]
    TooMany { count: u64 },
    #[error("out of memory")]
    Memory,
}

impl From<Memory> for PairsError {
    ghost use Rattle.switch_pairs.specs.declared.error.PairsError.TheVariants as PairsError;

    ghost from_gives = { λ memory e. e ≡ PairsError.Memory };

    fn from(_: Memory) -> PairsError {
        PairsError::Memory
    }
}
