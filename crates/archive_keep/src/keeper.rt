// Where the ends of runs are kept.
ghost use Rattle.std.specs.Prelude.{◌≡◌, ℕ, ◌≤◌, Bool, true, false, List, OnOk, OnErr, IfOk, IsErrOf};
ghost use Rattle.archive_keep.specs.Rows.{KeptRow, IsStorable, rows_with, run_count, run_limit};
ghost use Rattle.archive_keep.specs.Storing.{Stores, AreByName, AreKept};
ghost use Rattle.archive_keep.specs.Faults.{HasCause};
ghost use Rattle.archive_keep.specs.declared.keeper.KeepFault.TheVariants.{Failed, Memory as OutOfMemory};

use crate::EndList;
use fleet_base::Memory;
use std::alloc::{AllocError, AllocFailed, Global};
use thiserror::Error;

/// What came of a run that was to be stored.
#[derive(Clone, Copy, Debug, PartialEq, Eq)]
pub enum Stored {
    /// Its rows were added.
    New,
    /// A run of this name is there.
    Kept,
    /// A million runs are there, and none has this name.
    Full,
}

/// Why a keeper gave no answer.
#[derive(Clone, Copy, Debug, PartialEq, Eq, Error)]
pub enum KeepFault {
    /// The keeper failed, and its count of faults rose.
    #[error("the keeper failed")]
    Failed,
    /// There was no memory.
    #[error("out of memory")]
    Memory,
}

impl From<Memory> for KeepFault {
    ghost from_gives = { λ _ e. e ≡ OutOfMemory };

    fn from(_: Memory) -> KeepFault {
        KeepFault::Memory
    }
}

impl From<AllocError> for KeepFault {
    ghost from_gives = { λ _ e. e ≡ OutOfMemory };

    fn from(_: AllocError) -> KeepFault {
        KeepFault::Memory
    }
}

impl<T: Drop> From<AllocFailed<T>> for KeepFault {
    ghost from_gives = { λ _ e. e ≡ OutOfMemory };

    fn from(_: AllocFailed<T>) -> KeepFault {
        KeepFault::Memory
    }
}

/// An archive of runs. Its rows say how each robot ended each run.
pub trait Keeper {
    /// That the keeper tells its rows. A real one does not.
    ghost tells: { Type 0 };

    /// Its rows.
    ghost table: { Self → List KeptRow };

    /// Whether an archive is attached.
    ghost attached: { Self → Bool };

    /// How often it has failed.
    ghost faults: { Self → ℕ };

    /// Names the archive. Any other call before an `attach` that answered Ok is a fault.
    fn attach(&mut self, alloc: Global, name: &str) -> Result<(), KeepFault>
        ensures rows { tells → table self.new ≡ table self.old }
        ensures attached { OnOk result (attached self.new ≡ true) }
        ensures err { OnErr result (attached self.new ≡ attached self.old) }
        ensures cause { HasCause (faults self.old) (faults self.new) result };

    /// Stores the ends of a run, by robot, once for a name.
    fn store(&mut self, alloc: Global, run: &[u8], ends: &EndList) -> Result<Stored, KeepFault>
        requires { IsStorable ends.now }
        ensures rows { tells → Stores run.now ends.now (table self.old) (table self.new) result }
        ensures attached { attached self.new ≡ attached self.old }
        ensures early { attached self.old ≡ false → IsErrOf result KeepFault.Failed }
        ensures early_rows { tells → attached self.old ≡ false → table self.new ≡ table self.old }
        ensures cause { HasCause (faults self.old) (faults self.new) result };

    /// The ends of a robot, by the names of their runs in the order of bytes.
    fn rows(&mut self, alloc: Global, robot: u32) -> Result<EndList, KeepFault>
        ensures ends { tells → IfOk result (AreByName (rows_with robot (table self.old))) }
        ensures bounds { IfOk result AreKept }
        ensures rows { tells → table self.new ≡ table self.old }
        ensures attached { attached self.new ≡ attached self.old }
        ensures early { attached self.old ≡ false → IsErrOf result KeepFault.Failed }
        ensures cause { HasCause (faults self.old) (faults self.new) result };

    /// The number of runs.
    fn runs(&mut self) -> Result<u64, KeepFault>
        ensures count { tells → IfOk result (λ n. n ≡ run_count (table self.old)) }
        ensures bound { IfOk result (λ n. n ≤ run_limit) }
        ensures rows { tells → table self.new ≡ table self.old }
        ensures attached { attached self.new ≡ attached self.old }
        ensures early { attached self.old ≡ false → IsErrOf result KeepFault.Failed }
        ensures cause { HasCause (faults self.old) (faults self.new) result };
}
