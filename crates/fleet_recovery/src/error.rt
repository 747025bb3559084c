ghost use Rattle.std.specs.Prelude.{◌≡◌};
ghost use Rattle.fleet_journal.specs.declared.error.JournalError.TheVariants.{Station as StationFault};
ghost use Rattle.fleet_recovery.specs.declared.error.RecoverError.TheVariants.{Journal as OfJournal, Memory as OutOfMemory};
ghost use Rattle.fleet_recovery.specs.Answers.{error_of};

use fleet_base::Memory;
use fleet_journal::JournalError;
use station_api::Failed;
use thiserror::Error;

/// Why a journal was not opened.
#[derive(Clone, Copy, Debug, PartialEq, Eq, Error)]
pub enum RecoverError {
    /// The sides are those of no journal, or there is a bad record, or a side is too small for a new journal, or the
    /// station failed. A bad record is an open gate behind which no entry stands that is a step from the state before
    /// it; its number is that of the report that is missing.
    #[error("{0}")]
    Journal(JournalError),
    /// The journal is that of another map or plan. Each taken as one text, the map, one byte 0 and the plan, these and
    /// those that were handed in are the same for so many bytes.
    #[error("the journal is that of another plan, from byte {at} on")]
    OtherPlan { at: u64 },
    /// There was no memory.
    #[error("out of memory")]
    Memory,
}

impl From<JournalError> for RecoverError {
    ghost from_gives = { λ e r. r ≡ error_of e };

    fn from(error: JournalError) -> RecoverError {
        match error {
            JournalError::Memory => RecoverError::Memory,
            _ => RecoverError::Journal(error),
        }
    }
}

impl From<Memory> for RecoverError {
    ghost from_gives = { λ _ r. r ≡ OutOfMemory };

    fn from(_: Memory) -> RecoverError {
        RecoverError::Memory
    }
}

impl From<Failed> for RecoverError {
    ghost from_gives = { λ _ r. r ≡ OfJournal StationFault };

    fn from(_: Failed) -> RecoverError {
        RecoverError::Journal(JournalError::Station)
    }
}
