// Standard input.
ghost use Rattle.std.specs.Prelude.{◌≡◌, ◌≤◌, [], length, IfOk};

use crate::fault::counted;
use station_api::{Failed, Source};
use std::io;
use std::io::Read;
use std::marker::Model;

/// What a reader gives, as `RealSource::new(rt.reader())` over standard input. Each read is one of the reader's.
#[derive(Drop)]
pub struct RealSource<R> {
    reader: R,
    last: usize,
    faults: u64,
}

impl<R> Model for RealSource<R> {
    ghost use Rattle.station_real.specs.Real.{RealSourceState};

    ghost Value = { RealSourceState };

    ghost view = { λ s. record { faults = s.faults; last = s.last } };
}

impl<R: Read> RealSource<R> {
    /// A source that has not failed yet.
    pub fn new(reader: R) -> Self
        ensures { result ≡ record { faults = 0; last = 0 } }
    {
        RealSource {
            reader,
            last: 0,
            faults: 0,
        }
    }
}

/// Reads once, and again where a signal came first.
fn read_once<R: Read>(reader: &mut R, room: &mut [u8]) -> io::Result<usize>
    ensures { IfOk result (λ n. n ≤ length room.new) }
{
    for _ in 0..u64::MAX {
        match reader.read(room) {
            Err(error) if error.kind() == io::ErrorKind::Interrupted => {}
            answer => return answer,
        }
    }
    Err(io::ErrorKind::Interrupted.into())
}

impl<R: Read> Source for RealSource<R> {
    ghost use Rattle.station_real.specs.Real.{real_counts};

    ghost tells = { ⊥ };

    ghost left = { λ _. [] };

    ghost last = { λ s. s.last };

    ghost counts = { λ s. real_counts s.faults };

    fn read(&mut self, room: &mut [u8]) -> Result<usize, Failed> {
        self.last = 0;
        let answer = read_once(&mut self.reader, room);
        let count = counted(&mut self.faults, answer)?;
        self.last = count;
        Ok(count)
    }
}
