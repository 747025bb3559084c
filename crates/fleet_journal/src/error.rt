ghost use Rattle.std.specs.Prelude.{◌≡◌};
ghost use Rattle.fleet_journal.specs.declared.error.JournalError.TheVariants.{Station as StationFault, Memory as OutOfMemory};

use fleet_base::Memory;
use station_api::Failed;
use std::alloc::AllocError;
use thiserror::Error;

/// Why a call on a journal was refused.
#[derive(Clone, Copy, Debug, PartialEq, Eq, Error)]
pub enum JournalError {
    /// No side is live, and some side is neither live nor blank.
    #[error("the sides are those of no journal")]
    NotJournal,
    /// An open gate has no whole frame in the grammar of entries behind it. Entries are counted from 1.
    #[error("entry {number} of the side is no record")]
    BadRecord { number: u64 },
    /// The header alone would end past the limit of a side; it needs a side of this length.
    #[error("the header needs a side of {needed} bytes")]
    Full { needed: u64 },
    /// The station failed, and its count of faults rose.
    #[error("the station failed")]
    Station,
    /// There was no memory.
    #[error("out of memory")]
    Memory,
}

impl From<Failed> for JournalError {
    ghost from_gives = { λ _ e. e ≡ StationFault };

    fn from(_: Failed) -> JournalError {
        JournalError::Station
    }
}

impl From<Memory> for JournalError {
    ghost from_gives = { λ _ e. e ≡ OutOfMemory };

    fn from(_: Memory) -> JournalError {
        JournalError::Memory
    }
}

impl From<AllocError> for JournalError {
    ghost from_gives = { λ _ e. e ≡ OutOfMemory };

    fn from(_: AllocError) -> JournalError {
        JournalError::Memory
    }
}
