// A shelf in memory.
ghost use Rattle.std.specs.Prelude.{◌≡◌, ◌⊎◌, ◌↔◌, [], false, ℕ, List, Option, OnOk, OnErr, IfSome, MatchOption, IsErrOf, if◌then◌else◌, length, is_some};
ghost use Rattle.std.specs.Str.{bytes_eq};
ghost use Rattle.station_api.specs.Causes.{Counted, IsToBlame, counts_of, one_more};
ghost use Rattle.station_api.specs.Files.{file_in};
ghost use Rattle.station_api.specs.Meter.{IsSetToFail, CountsCall};
ghost use Rattle.station_api.specs.Reading.{Fetches, KeepsLimit, IsFault};
ghost use Rattle.station_api.specs.ShelfState.{shelf_file, shelf_asked, shelf_counts, shelf_fails_at};

use crate::meter::Meter;
use crate::{Shelf, ShelfFault};
use fleet_base::Memory;
use std::alloc::Global;
use std::marker::Model;

#[derive(Drop)]
pub struct File {
    pub name: String,
    pub bytes: Vec<u8>,
}

/// Files that lie in memory. It fails at the calls that it is told to, and where there is no file of a name.
#[derive(Drop)]
pub struct MemShelf {
    // the newest first
    files: Vec<File>,
    // the name of the last call, if there was memory to keep it
    asked: Option<Vec<u8>>,
    meter: Meter,
}

impl Model for MemShelf {
    ghost use Rattle.std.specs.Prelude.{◌≡◌, false};
    ghost use Rattle.station_api.specs.ShelfState.{ShelfState, name_kept};

    ghost Value = { ShelfState };

    ghost view = { λ s. record { files = s.files.items; asked = name_kept s.asked; meter = s.meter } };

    // It is never ready, since it may always fail for want of a file.
    ghost invariant = { λ s. s.meter.ready ≡ false };
}

/// The file of a name.
fn find<'a>(files: &'a [File], name: &str) -> Option<&'a File>
    ensures { MatchOption result (file_in files.now name.now ≡ None) (λ f. file_in files.now name.now ≡ Some f.now.bytes.items) }
{
    for file in files {
        if file.name.as_str() == name {
            return Some(file);
        }
    }
    None
}

impl MemShelf {
    /// An empty shelf, which fails at the calls with these numbers, counted from 1.
    pub fn new(alloc: Global, failing: Vec<u64>) -> Self
        ensures files { (n : List ℕ) → shelf_file result n ≡ None }
        ensures failing { shelf_fails_at result ≡ failing.items }
        ensures calls { result.meter.calls ≡ 0 }
        ensures counts { shelf_counts result ≡ counts_of 0 0 false failing.items }
    {
        MemShelf {
            files: Vec::new(alloc),
            asked: None,
            meter: Meter::new(failing, false),
        }
    }

    /// Adds a file, or puts it in the place of the one of that name. It is no call that is counted, and an `Err` changes
    /// nothing.
    pub fn put(&mut self, alloc: Global, name: &str, bytes: &[u8]) -> Result<(), Memory>
        ensures ok { OnOk result ((n : List ℕ) → shelf_file self.new n ≡ (if bytes_eq name.now n then Some bytes.now else shelf_file self.old n)) }
        ensures err { OnErr result ((n : List ℕ) → shelf_file self.new n ≡ shelf_file self.old n) }
        ensures counts { self.new.meter ≡ self.old.meter }
    {
        let (Ok(name), Ok(bytes)) = (String::from_str(alloc, name), bytes.to_vec(alloc)) else {
            return Err(Memory);
        };
        if self.files.insert(0, File { name, bytes }).is_err() {
            return Err(Memory);
        }
        Ok(())
    }
}

impl Shelf for MemShelf {
    ghost use Rattle.station_api.specs.ShelfState.{shelf_file, shelf_asked, shelf_counts};

    ghost tells = { Unit {0} };

    ghost file = { shelf_file };

    ghost asked = { shelf_asked };

    ghost counts = { shelf_counts };

    fn fetch(&mut self, alloc: Global, name: &str, limit: u64) -> Result<Vec<u8>, ShelfFault>
        ensures limit { KeepsLimit limit result }
        ensures answer { Fetches (shelf_file self.old name.now) result }
        ensures files { (n : List ℕ) → shelf_file self.new n ≡ shelf_file self.old n }
        ensures asked { IfSome (shelf_asked self.new) (λ n. n ≡ name.now) }
        ensures counted { Counted (shelf_counts self.old) (shelf_counts self.new) }
        ensures cause { IsFault result → IsToBlame (shelf_counts self.old) (shelf_counts self.new) }

        // It fails at the calls that are set to fail, and only there, and otherwise only where no file has the name.
        ensures call { CountsCall false self.old.meter self.new.meter result }
        ensures fails { IsErrOf result ShelfFault.Failed ↔ IsSetToFail false self.old.meter }
        ensures one_fault { IsFault result → (shelf_counts self.new).faults ≡ one_more (shelf_counts self.old).faults }
        ensures missing { shelf_fails_at self.old ≡ [] → ((shelf_counts self.new).faults ≡ (shelf_counts self.old).faults) ⊎ (shelf_file self.old name.now ≡ None) }
    {
        self.asked = name.as_bytes().to_vec(alloc).ok();
        self.meter.begin(false)?;
        let Some(file) = find(&self.files, name) else {
            self.meter.blame();
            return Err(ShelfFault::Missing);
        };
        let length = file.bytes.len() as u64;
        if length > limit {
            return Err(ShelfFault::TooLong { length });
        }
        Ok(file.bytes.as_slice().to_vec(alloc)?)
    }
}
