// Files of the system.
ghost use Rattle.std.specs.Prelude.{◌≡◌, None};

use station_api::{Shelf, ShelfFault};
use std::alloc::Global;
use std::fs::OpenFile;
use std::io::Read;
use std::marker::Model;
use std::rt::Files;
use std::{fs, io};

/// The files of the system, by their paths.
#[derive(Drop)]
pub struct RealShelf<R> {
    rt: R,
    faults: u64,
}

impl<R> Model for RealShelf<R> {
    ghost use Rattle.std.specs.Prelude.{ℕ};

    ghost Value = { ℕ };

    ghost view = { λ s. s.faults };
}

impl<R: Files> RealShelf<R> {
    /// A shelf that has not failed yet.
    pub fn new(rt: R) -> Self
        ensures { result ≡ 0 }
    {
        RealShelf { rt, faults: 0 }
    }
}

/// The bytes of a file, and how long it says that it is. Where that is within the limit, one byte past the limit is
/// asked for too, since a file may grow, and some do not tell their length; else no byte is read.
fn read_within<R: Files>(
    rt: &R,
    alloc: Global,
    name: &str,
    limit: u64,
) -> io::Result<(Vec<u8>, u64)> {
    let file = fs::open(rt, name)?;
    let length = file.metadata()?.len();
    let mut bytes = Vec::new(alloc);
    if length <= limit {
        file.take(limit.saturating_add(1)).read_to_end(&mut bytes)?;
    }
    Ok((bytes, length))
}

impl<R: Files> Shelf for RealShelf<R> {
    ghost use Rattle.station_real.specs.Real.{real_counts};

    ghost tells = { ⊥ };

    ghost file = { λ _ _. None };

    ghost asked = { λ _. None };

    ghost counts = { real_counts };

    fn fetch(&mut self, alloc: Global, name: &str, limit: u64) -> Result<Vec<u8>, ShelfFault> {
        match read_within(&self.rt, alloc, name, limit) {
            Ok((bytes, told)) => {
                let length = told.max(bytes.len() as u64);
                if length > limit {
                    return Err(ShelfFault::TooLong { length });
                }
                Ok(bytes)
            }
            Err(error) if error.kind() == io::ErrorKind::OutOfMemory => Err(ShelfFault::Memory),
            Err(error) => {
                self.faults = self.faults.saturating_add(1);
                if error.kind() == io::ErrorKind::NotFound {
                    return Err(ShelfFault::Missing);
                }
                Err(ShelfFault::Failed)
            }
        }
    }
}
