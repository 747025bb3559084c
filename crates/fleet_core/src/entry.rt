ghost use Rattle.std.specs.Prelude.{◌≡◌};

use fleet_base::{Memory, PairId, PairList, Report, VisitList};
use thiserror::Error;

/// One event of the fleet: an accepted report, the pairs whose sides it turns, and the visits that it releases.
#[derive(Debug, Drop)]
pub struct Entry {
    pub report: Report,
    pub switched: PairList,
    pub releases: VisitList,
}

/// Why pairs are not switched.
#[derive(Clone, Copy, Debug, PartialEq, Eq)]
pub enum ChoiceWhy {
    /// One of them is not open.
    Closed,
    /// All are open, and the order that they lead to is cyclic.
    Cyclic,
}

/// Why there is no entry.
#[derive(Clone, Copy, Debug, PartialEq, Eq, Error)]
pub enum PrepareError {
    /// The pairs are not switched: the pair is the first that is not open, or else the first of them.
    #[error("the pairs are not switched")]
    ChoiceRefused { pair: PairId, why: ChoiceWhy },
    #[error("out of memory")]
    Memory,
}

impl From<Memory> for PrepareError {
    ghost use Rattle.fleet_core.specs.declared.entry.PrepareError.TheVariants as prepare_error;

    ghost from_gives = { λ _ e. e ≡ prepare_error.Memory };

    fn from(_: Memory) -> PrepareError {
        PrepareError::Memory
    }
}
