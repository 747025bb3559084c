// The files that are read whole.
ghost use Rattle.std.specs.Prelude.{◌≡◌, ℕ, List, Option, IfSome};
ghost use Rattle.station_api.specs.Causes.{Counts, Counted, IsToBlame};
ghost use Rattle.station_api.specs.Reading.{Fetches, KeepsLimit, IsFault};
ghost use Rattle.station_api.specs.declared.shelf.ShelfFault.TheVariants.{Failed as ShelfFailed, Memory as OutOfMemory};

use crate::Failed;
use std::alloc::{AllocError, Global};
use thiserror::Error;

/// Why a file was not fetched.
#[derive(Clone, Copy, Debug, PartialEq, Eq, Error)]
pub enum ShelfFault {
    /// There is no file of that name. It counts as a fault.
    #[error("there is no such file")]
    Missing,
    /// The shelf failed, and its count of faults rose.
    #[error("the shelf failed")]
    Failed,
    /// The file is longer than the limit.
    #[error("the file is too long: {length} bytes")]
    TooLong { length: u64 },
    /// There was no memory.
    #[error("out of memory")]
    Memory,
}

impl From<Failed> for ShelfFault {
    ghost from_gives = { λ _ e. e ≡ ShelfFailed };

    fn from(_: Failed) -> ShelfFault {
        ShelfFault::Failed
    }
}

impl From<AllocError> for ShelfFault {
    ghost from_gives = { λ _ e. e ≡ OutOfMemory };

    fn from(_: AllocError) -> ShelfFault {
        ShelfFault::Memory
    }
}

/// Where files are read from.
pub trait Shelf {
    /// That the shelf tells which files it has. A real one does not.
    ghost tells: { Type 0 };

    /// The file of a name.
    ghost file: { Self → List ℕ → Option (List ℕ) };

    /// The name that was asked for last, where the shelf has kept it.
    ghost asked: { Self → Option (List ℕ) };

    /// How often it has failed.
    ghost counts: { Self → Counts };

    /// The whole file, if it is no longer than the limit.
    fn fetch(&mut self, alloc: Global, name: &str, limit: u64) -> Result<Vec<u8>, ShelfFault>
        ensures limit { KeepsLimit limit result }
        ensures answer { tells → Fetches (file self.old name.now) result }
        ensures files { tells → (n : List ℕ) → file self.new n ≡ file self.old n }
        ensures asked { tells → IfSome (asked self.new) (λ n. n ≡ name.now) }
        ensures counted { Counted (counts self.old) (counts self.new) }
        ensures cause { IsFault result → IsToBlame (counts self.old) (counts self.new) };
}
