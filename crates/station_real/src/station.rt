// A journal's two files, and standard output.
ghost use Rattle.std.specs.Prelude.{◌≡◌, ◌<◌, ◌≤◌, length, IfOk};

use crate::fault::counted;
use crate::journal::Journal;
use station_api::{AttachFault, DiskSide, Failed, Station};
use std::alloc::Global;
use std::fs::File;
use std::io;
use std::marker::Model;
use std::rt::Files;

/// The files `NAME.a` and `NAME.b` of a journal, and standard output.
///
/// The first sync, write or cut of a side after an `attach` locks the journal, for as long as this station has it. To that end
/// it makes a missing `NAME.a`, empty. Where another program has the lock, or the file system knows no locks, the call is a
/// fault. Reads ask for no lock.
#[derive(Drop)]
pub struct RealStation<R> {
    rt: R,
    journal: Option<Journal>,
    faults: u64,
}

impl<R> Model for RealStation<R> {
    ghost use Rattle.std.specs.Prelude.{ℕ};

    ghost Value = { ℕ };

    ghost view = { λ s. s.faults };
}

impl<R: Files<File = File> + Print> RealStation<R> {
    /// A station that is not attached and has not failed yet.
    pub fn new(rt: R) -> Self
        ensures { result ≡ 0 }
    {
        RealStation {
            rt,
            journal: None,
            faults: 0,
        }
    }
}

/// What a call on a side answers before an attach.
fn not_attached() -> io::Error {
    io::ErrorKind::NotConnected.into()
}

/// Sends a front of the bytes, at least one of them.
fn send_some(rt: &impl Print, bytes: &[u8]) -> io::Result<usize>
    ensures bound { IfOk result (λ n. n ≤ length bytes.now) }
    ensures some { IfOk result (λ n. 0 < length bytes.now → 0 < n) }
{
    if bytes.is_empty() {
        return Ok(0);
    }
    for _ in 0..u64::MAX {
        match rt.write_some(bytes) {
            Ok(0) => return Err(io::ErrorKind::WriteZero.into()),
            Err(error) if error.kind() == io::ErrorKind::Interrupted => {}
            answer => return answer,
        }
    }
    Err(io::ErrorKind::Interrupted.into())
}

impl<R: Files<File = File> + Print> Station for RealStation<R> {
    ghost use Rattle.station_real.specs.Real.{real_counts, untold_clock};

    ghost tells = { ⊥ };

    ghost clock = { λ _. untold_clock };

    ghost counts = { real_counts };

    fn attach(&mut self, alloc: Global, name: &str) -> Result<(), AttachFault> {
        match Journal::open(&self.rt, alloc, name) {
            Ok(journal) => {
                self.journal = Some(journal);
                Ok(())
            }
            Err(error) if error.kind() == io::ErrorKind::OutOfMemory => Err(AttachFault::Memory),
            Err(_) => {
                self.faults = self.faults.saturating_add(1);
                Err(AttachFault::Failed)
            }
        }
    }

    fn length(&mut self, side: DiskSide) -> Result<u64, Failed> {
        let answer = match &self.journal {
            Some(journal) => journal.length(side),
            None => Err(not_attached()),
        };
        counted(&mut self.faults, answer)
    }

    fn read(&mut self, side: DiskSide, at: u64, room: &mut [u8]) -> Result<usize, Failed> {
        let answer = match &self.journal {
            Some(journal) => journal.read(side, at, room),
            None => Err(not_attached()),
        };
        counted(&mut self.faults, answer)
    }

    fn write_at(&mut self, side: DiskSide, at: u64, bytes: &[u8]) -> Result<(), Failed> {
        let answer = match &mut self.journal {
            Some(journal) => journal.write_at(&self.rt, side, at, bytes),
            None => Err(not_attached()),
        };
        counted(&mut self.faults, answer)
    }

    fn cut(&mut self, side: DiskSide, length: u64) -> Result<(), Failed> {
        let answer = match &mut self.journal {
            Some(journal) => journal.cut(&self.rt, side, length),
            None => Err(not_attached()),
        };
        counted(&mut self.faults, answer)
    }

    /// After a failed sync the system may count bytes as written that it has lost, so the journal is let go.
    fn sync(&mut self, side: DiskSide) -> Result<(), Failed> {
        let answer = match &mut self.journal {
            Some(journal) => journal.sync(&self.rt, side),
            None => Err(not_attached()),
        };
        if answer.is_err() {
            self.journal = None;
        }
        counted(&mut self.faults, answer)
    }

    fn send(&mut self, bytes: &[u8]) -> Result<usize, Failed> {
        let answer = send_some(&self.rt, bytes);
        counted(&mut self.faults, answer)
    }
}
