// A keeper in memory.
ghost use Rattle.std.specs.Prelude.{◌≡◌, ◌↔◌, ◌≤◌, [], true, false, ℕ, length, filter, bytes_eq, IsErr, IsErrOf, IfOk, IfSome, OnOk, OnErr, is_some};
ghost use Rattle.archive_keep.specs.Rows.{IsStorable, rows_of, has_run, rows_with, run_count, run_limit};
ghost use Rattle.archive_keep.specs.Storing.{Stores, AreByName, AreKept};
ghost use Rattle.archive_keep.specs.Faults.{HasCause, one_more};
ghost use Rattle.archive_keep.specs.Memory.{IsSetToFail, CountsCall, table_of};

use crate::calls::Calls;
use crate::kept_run::{KeptRun, add, ends_by_name, find};
use crate::{EndList, KeepFault, Keeper, Stored};
use std::alloc::Global;
use std::marker::Model;

/// An archive that lies in memory, one for every name. It fails at the calls that it is told to, and where it is called
/// before it is attached, and otherwise never.
#[derive(Drop)]
pub struct MemKeeper {
    runs: Vec<KeptRun>,
    calls: Calls,
}

impl Model for MemKeeper {
    ghost use Rattle.archive_keep.specs.Memory.{MemoryState, AreRuns};

    ghost Value = { MemoryState };

    ghost view = { λ k. record { runs = k.runs.items; calls = k.calls } };

    ghost invariant = { λ k. AreRuns k.runs.items };
}

impl MemKeeper {
    /// A keeper without rows, which fails at the calls with these numbers, counted from 1.
    pub fn new(alloc: Global, failing: Vec<u64>) -> Self
        ensures rows { table_of result.runs ≡ [] }
        ensures failing { result.calls.failing ≡ failing }
        ensures made { result.calls.made ≡ 0 }
        ensures attached { result.calls.attached ≡ false }
        ensures faults { result.calls.faults ≡ 0 }
    {
        MemKeeper {
            runs: Vec::new(alloc),
            calls: Calls::new(failing),
        }
    }

    /// The ends of the run of a name, by robot. It is no call that is counted.
    pub fn ends(&self, run: &[u8]) -> Option<&EndList>
        ensures some { IfSome result (λ ends. filter (λ row. bytes_eq row.run run.now) (table_of self.now.runs) ≡ rows_of run.now ends.now) }
        ensures there { is_some result ≡ has_run (table_of self.now.runs) run.now }
    {
        find(&self.runs, run)
    }
}

impl Keeper for MemKeeper {
    ghost tells = { Unit {0} };

    ghost table = { λ k. table_of k.runs };

    ghost attached = { λ k. k.calls.attached };

    ghost faults = { λ k. k.calls.faults };

    fn attach(&mut self, _alloc: Global, _name: &str) -> Result<(), KeepFault>
        ensures rows { table_of self.new.runs ≡ table_of self.old.runs }
        ensures attached { OnOk result (self.new.calls.attached ≡ true) }
        ensures err { OnErr result (self.new.calls.attached ≡ self.old.calls.attached) }
        ensures cause { HasCause self.old.calls.faults self.new.calls.faults result }

        // It fails at the calls that are set to fail alone.
        ensures fails { IsErr result ↔ IsSetToFail false self.old.calls }
        ensures call { CountsCall self.old.calls self.new.calls result }
    {
        self.calls.begin(false)?;
        self.calls.attached = true;
        Ok(())
    }

    fn store(&mut self, alloc: Global, run: &[u8], ends: &EndList) -> Result<Stored, KeepFault>
        requires { IsStorable ends.now }
        ensures rows { Stores run.now ends.now (table_of self.old.runs) (table_of self.new.runs) result }
        ensures attached { self.new.calls.attached ≡ self.old.calls.attached }
        ensures early { self.old.calls.attached ≡ false → IsErrOf result KeepFault.Failed }
        ensures early_rows { self.old.calls.attached ≡ false → table_of self.new.runs ≡ table_of self.old.runs }
        ensures cause { HasCause self.old.calls.faults self.new.calls.faults result }

        // It fails at the calls that are set to fail and where it is not attached, and then its rows stay.
        ensures fails { IsErrOf result KeepFault.Failed ↔ IsSetToFail true self.old.calls }
        ensures stays { OnErr result (table_of self.new.runs ≡ table_of self.old.runs) }
        ensures call { CountsCall self.old.calls self.new.calls result }
    {
        self.calls.begin(true)?;
        let stored = add(alloc, &mut self.runs, run, ends)?;
        Ok(stored)
    }

    fn rows(&mut self, alloc: Global, robot: u32) -> Result<EndList, KeepFault>
        ensures ends { IfOk result (AreByName (rows_with robot (table_of self.old.runs))) }
        ensures bounds { IfOk result AreKept }
        ensures rows { table_of self.new.runs ≡ table_of self.old.runs }
        ensures attached { self.new.calls.attached ≡ self.old.calls.attached }
        ensures early { self.old.calls.attached ≡ false → IsErrOf result KeepFault.Failed }
        ensures cause { HasCause self.old.calls.faults self.new.calls.faults result }

        ensures fails { IsErrOf result KeepFault.Failed ↔ IsSetToFail true self.old.calls }
        ensures call { CountsCall self.old.calls self.new.calls result }
    {
        self.calls.begin(true)?;
        let ends = ends_by_name(alloc, &self.runs, robot)?;
        Ok(ends)
    }

    fn runs(&mut self) -> Result<u64, KeepFault>
        ensures count { IfOk result (λ n. n ≡ run_count (table_of self.old.runs)) }
        ensures bound { IfOk result (λ n. n ≤ run_limit) }
        ensures rows { table_of self.new.runs ≡ table_of self.old.runs }
        ensures attached { self.new.calls.attached ≡ self.old.calls.attached }
        ensures early { self.old.calls.attached ≡ false → IsErrOf result KeepFault.Failed }
        ensures cause { HasCause self.old.calls.faults self.new.calls.faults result }

        // It takes no memory.
        ensures fails { IsErr result ↔ IsSetToFail true self.old.calls }
        ensures call { CountsCall self.old.calls self.new.calls result }
    {
        self.calls.begin(true)?;
        Ok(self.runs.len() as u64)
    }
}
