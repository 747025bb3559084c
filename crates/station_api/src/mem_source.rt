// A source in memory.
ghost use Rattle.std.specs.Prelude.{◌≡◌, ◌≤◌, ◌↔◌, [], true, false, min, length, IsErr, IfOk, OnOk, OnErr, MatchResult};
ghost use Rattle.station_api.specs.Causes.{HasCause, counts_of, one_more};
ghost use Rattle.station_api.specs.Meter.{IsSetToFail, CountsCall};
ghost use Rattle.station_api.specs.Reading.{TakesFront};
ghost use Rattle.station_api.specs.SourceState.{source_counts, source_fails_at};

use crate::meter::Meter;
use crate::{Failed, Source};
use std::alloc::Global;
use std::marker::Model;

/// Report lines that lie in memory. It fails at the calls that it is told to, and otherwise never.
#[derive(Drop)]
pub struct MemSource {
    bytes: Vec<u8>,
    taken: usize,
    last: usize,
    meter: Meter,
}

impl Model for MemSource {
    ghost use Rattle.std.specs.Prelude.{◌≤◌, drop, length};
    ghost use Rattle.station_api.specs.SourceState.{SourceState};

    ghost Value = { SourceState };

    ghost view = { λ s. record { left = drop s.taken s.bytes.items; last = s.last; meter = s.meter } };

    ghost invariant = { λ s. s.taken ≤ length s.bytes.items };
}

impl MemSource {
    /// A source of these bytes, which fails at the calls with these numbers, counted from 1.
    pub fn new(_alloc: Global, bytes: Vec<u8>, failing: Vec<u64>) -> Self
        ensures left { result.left ≡ bytes.items }
        ensures last { result.last ≡ 0 }
        ensures failing { source_fails_at result ≡ failing.items }
        ensures calls { result.meter.calls ≡ 0 }
        ensures counts { source_counts result ≡ counts_of 0 0 true failing.items }
    {
        MemSource {
            bytes,
            taken: 0,
            last: 0,
            meter: Meter::new(failing, true),
        }
    }
}

impl Source for MemSource {
    ghost use Rattle.station_api.specs.SourceState.{source_counts};

    ghost tells = { Unit {0} };

    ghost left = { λ s. s.left };

    ghost last = { λ s. s.last };

    ghost counts = { source_counts };

    fn read(&mut self, room: &mut [u8]) -> Result<usize, Failed>
        ensures bound { IfOk result (λ n. n ≤ length room.new) }
        ensures bytes { IfOk result (λ n. TakesFront self.old.left self.new.left n room.old room.new) }
        ensures none { OnErr result (self.new.left ≡ self.old.left) }
        ensures last { MatchResult result (λ n. self.new.last ≡ n) (λ _. self.new.last ≡ 0) }
        ensures cause { HasCause (source_counts self.old) (source_counts self.new) result }

        // It takes all that the room has place for, and it fails at the calls that are set to fail alone.
        ensures most { IfOk result (λ n. n ≡ min (length self.old.left) (length room.old)) }
        ensures call { CountsCall false self.old.meter self.new.meter result }
        ensures fails { IsErr result ↔ IsSetToFail false self.old.meter }
        ensures no_fault { OnOk result (source_counts self.new ≡ source_counts self.old) }
        ensures one_fault { OnErr result ((source_counts self.new).faults ≡ one_more (source_counts self.old).faults) }
        ensures never { source_fails_at self.old ≡ [] → (source_counts self.new).faults ≡ (source_counts self.old).faults }
    {
        self.last = 0;
        self.meter.begin(false)?;
        let left = &self.bytes[self.taken..];
        let count = left.len().min(room.len());
        room[..count].copy_from_slice(&left[..count]);
        self.taken += count;
        self.last = count;
        Ok(count)
    }
}
