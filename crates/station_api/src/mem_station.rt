// The station in memory. Its sides are kept for every name. It remembers each change, so that a stop after any of its
// calls can be played.
ghost use Rattle.std.specs.Prelude.{◌≡◌, ◌<◌, ◌≤◌, ◌-◌, ◌^◌, ◌↔◌, ℕ, [], true, false, min, length, IfOk, OnOk, OnErr, IfErr, IsErr, IsErrOf, IsTrue};
ghost use Rattle.station_api.specs.Meter.{IsSetToFail};
ghost use Rattle.station_api.specs.Scene.{side_of};
ghost use Rattle.station_api.specs.Clock.{IsKept, IsUnmoved};
ghost use Rattle.station_api.specs.Disk.{Torn, Shortened, Reaches, IsQuiet, IsStep, IsSending, IsSynced, Writes, Cuts, Sends, Reads};
ghost use Rattle.station_api.specs.Causes.{Counted, HasCause, IsToBlame, counts_of};
ghost use Rattle.station_api.specs.Replay.{scene};
ghost use Rattle.station_api.specs.StationState.{station_clock, station_counts, calls_of, fails_at, is_attached, station_stopped, IsCall};

use crate::disk::Disk;
use crate::meter::Meter;
use crate::{AttachFault, DiskSide, Failed, Station};
use fleet_base::Memory;
use std::alloc::Global;
use std::marker::Model;

/// A disk and a line that lie in memory. It fails at the calls that it is told to, at a call on a side before an `attach`
/// that answered Ok, and for want of memory.
#[derive(Drop)]
pub struct MemStation {
    alloc: Global,
    disk: Disk,
    meter: Meter,
    most: usize,
}

impl Model for MemStation {
    ghost use Rattle.std.specs.Prelude.{◌<◌};
    ghost use Rattle.station_api.specs.StationState.{StationState};

    ghost Value = { StationState };

    ghost view = { λ s. record { past = s.disk; meter = s.meter; most = s.most } };

    ghost invariant = { λ s. 0 < s.most };
}

/// Puts the bytes that stand at a place into the room.
fn fill(stands: &[u8], at: u64, room: &mut [u8]) -> usize
    ensures { Reads stands.now at result room.old room.new }
{
    if at >= stands.len() as u64 {
        return 0;
    }
    let from = at as usize;
    let count = room.len().min(stands.len() - from);
    room[..count].copy_from_slice(&stands[from..from + count]);
    count
}

impl MemStation {
    /// An empty station, which fails at the calls with these numbers, counted from 1.
    pub fn new(alloc: Global, failing: Vec<u64>) -> Self
        ensures seen { (station_clock result).seen ≡ scene [] [] [] }
        ensures kept { IsKept (station_clock result) }
        ensures failing { fails_at result ≡ failing.items }
        ensures calls { calls_of result ≡ 0 }
        ensures counts { station_counts result ≡ counts_of 0 0 false failing.items }
        ensures attached { is_attached result ≡ false }
        ensures most { result.most ≡ 2 ^ 64 - 1 }
    {
        MemStation {
            alloc,
            disk: Disk::empty(alloc),
            meter: Meter::new(failing, false),
            most: usize::MAX,
        }
    }

    /// The bytes of a side, as a read gives them.
    pub fn side(&self, side: DiskSide) -> &[u8]
        ensures { result.now ≡ side_of side (station_clock self.now).seen }
    {
        self.disk.side(side)
    }

    /// What was sent.
    pub fn sent(&self) -> &[u8]
        ensures { result.now ≡ (station_clock self.now).seen.sent }
    {
        self.disk.sent()
    }

    /// How many calls there were.
    pub fn calls(&self) -> u64
        ensures { result ≡ calls_of self.now }
    {
        self.meter.calls
    }

    /// How many calls found no memory.
    pub fn starved(&self) -> u64
        ensures { result ≡ (station_counts self.now).starved }
    {
        self.meter.starved
    }

    /// From now on each `send` takes at most so many bytes.
    pub fn take_at_most(&mut self, most: u64)
        requires { 1 ≤ most }
        ensures { self.new ≡ record self.old { most = most } }
    {
        self.most = most as usize;
    }

    /// The station that a stop after the first `calls` calls leaves, or after all where there are fewer. Of the bytes
    /// not yet synced, side A's by place and then side B's, the first `kept` are as written, and the others hold `fill`.
    /// It is not attached, no call of it is set to fail, and its calls are counted from 0.
    pub fn stopped(
        &self,
        alloc: Global,
        calls: u64,
        kept: u64,
        fill: u8,
    ) -> Result<MemStation, Memory>
        // It is one of the scenes that a stop might have left.
        ensures left { IfOk result (λ s. (station_clock self.now).left_since 0 (station_clock s).seen) }
        ensures exact { IfOk result (λ s. (station_clock s).seen ≡ station_stopped self.now calls kept fill) }
        // A further stop leaves it alone.
        ensures kept { IfOk result (λ s. IsKept (station_clock s)) }
        ensures failing { IfOk result (λ s. fails_at s ≡ []) }
        ensures calls { IfOk result (λ s. calls_of s ≡ 0) }
        ensures counts { IfOk result (λ s. station_counts s ≡ counts_of 0 0 false []) }
        ensures attached { IfOk result (λ s. is_attached s ≡ false) }
        ensures most { IfOk result (λ s. s.most ≡ 2 ^ 64 - 1) }
    {
        let Ok(disk) = self.disk.stopped(alloc, calls, kept, fill) else {
            return Err(Memory);
        };
        Ok(MemStation {
            alloc: self.alloc,
            disk,
            meter: Meter::new(Vec::new(alloc), false),
            most: usize::MAX,
        })
    }
}

impl Station for MemStation {
    ghost use Rattle.station_api.specs.StationState.{station_clock, station_counts};

    ghost tells = { Unit {0} };

    ghost clock = { station_clock };

    ghost counts = { station_counts };

    /// The sides are kept for every name.
    fn attach(&mut self, _alloc: Global, _name: &str) -> Result<(), AttachFault>
        ensures quiet { IsQuiet (station_clock self.old) (station_clock self.new) }
        ensures counted { Counted (station_counts self.old) (station_counts self.new) }
        ensures cause { IsErrOf result AttachFault.Failed → IsToBlame (station_counts self.old) (station_counts self.new) }

        // It fails exactly where it is set to fail, and takes no memory.
        ensures fails { IsErr result ↔ IsSetToFail false self.old.meter }
        ensures only { IfErr result (λ e. e ≡ AttachFault.Failed) }
        ensures call { IsCall false self.old self.new result }
        ensures past { self.new.past ≡ self.old.past }
        ensures attached { OnOk result (is_attached self.new ≡ true) }
        ensures not_attached { OnErr result (is_attached self.new ≡ is_attached self.old) }
        // Where no call is set to fail, it fails from then on for want of memory alone.
        ensures ready { OnOk result (fails_at self.old ≡ [] → IsTrue (station_counts self.new).flawless) }
    {
        if self.meter.begin(false).is_err() {
            return Err(AttachFault::Failed);
        }
        self.meter.ready = true;
        Ok(())
    }

    fn length(&mut self, side: DiskSide) -> Result<u64, Failed>
        ensures quiet { IsQuiet (station_clock self.old) (station_clock self.new) }
        ensures length { IfOk result (λ n. n ≡ length (side_of side (station_clock self.old).seen)) }
        ensures cause { HasCause (station_counts self.old) (station_counts self.new) result }

        ensures call { IsCall true self.old self.new result }
        ensures past { self.new.past ≡ self.old.past }
        ensures attached { is_attached self.new ≡ is_attached self.old }
    {
        self.meter.begin(true)?;
        Ok(self.disk.side(side).len() as u64)
    }

    fn read(&mut self, side: DiskSide, at: u64, room: &mut [u8]) -> Result<usize, Failed>
        ensures bound { IfOk result (λ n. n ≤ length room.new) }
        ensures quiet { IsQuiet (station_clock self.old) (station_clock self.new) }
        ensures bytes { IfOk result (λ n. Reads (side_of side (station_clock self.old).seen) at n room.old room.new) }
        ensures cause { HasCause (station_counts self.old) (station_counts self.new) result }

        ensures call { IsCall true self.old self.new result }
        ensures past { self.new.past ≡ self.old.past }
        ensures attached { is_attached self.new ≡ is_attached self.old }
    {
        self.meter.begin(true)?;
        Ok(fill(self.disk.side(side), at, room))
    }

    fn write_at(&mut self, side: DiskSide, at: u64, bytes: &[u8]) -> Result<(), Failed>
        requires { Reaches side at (station_clock self.old) }
        ensures step { IsStep side (Torn at (length bytes.now)) (station_clock self.old) (station_clock self.new) }
        ensures written { OnOk result (Writes side at bytes.now (station_clock self.old) (station_clock self.new)) }
        ensures cause { HasCause (station_counts self.old) (station_counts self.new) result }

        ensures call { IsCall true self.old self.new result }
        ensures attached { is_attached self.new ≡ is_attached self.old }
    {
        self.meter.begin(true)?;
        if let Err(_) = self
            .disk
            .write_at(self.alloc, self.meter.calls, side, at, bytes)
        {
            return Err(self.meter.starve());
        }
        Ok(())
    }

    fn cut(&mut self, side: DiskSide, length: u64) -> Result<(), Failed>
        requires { Reaches side length (station_clock self.old) }
        ensures step { IsStep side (Shortened length) (station_clock self.old) (station_clock self.new) }
        ensures shortened { OnOk result (Cuts side length (station_clock self.old) (station_clock self.new)) }
        ensures cause { HasCause (station_counts self.old) (station_counts self.new) result }

        ensures call { IsCall true self.old self.new result }
        ensures attached { is_attached self.new ≡ is_attached self.old }
    {
        self.meter.begin(true)?;
        if let Err(_) = self.disk.cut(self.meter.calls, side, length) {
            return Err(self.meter.starve());
        }
        Ok(())
    }

    fn sync(&mut self, side: DiskSide) -> Result<(), Failed>
        ensures quiet { IsQuiet (station_clock self.old) (station_clock self.new) }
        ensures synced { OnOk result (IsSynced side (station_clock self.new)) }
        ensures cause { HasCause (station_counts self.old) (station_counts self.new) result }

        ensures call { IsCall true self.old self.new result }
        ensures attached { is_attached self.new ≡ is_attached self.old }
    {
        self.meter.begin(true)?;
        if let Err(_) = self.disk.sync(self.meter.calls, side) {
            return Err(self.meter.starve());
        }
        Ok(())
    }

    fn send(&mut self, bytes: &[u8]) -> Result<usize, Failed>
        ensures bound { IfOk result (λ n. n ≤ length bytes.now) }
        ensures some { IfOk result (λ n. 0 < length bytes.now → 0 < n) }
        ensures sending { IsSending (station_clock self.old) (station_clock self.new) }
        ensures sent { IfOk result (λ n. Sends bytes.now n (station_clock self.old) (station_clock self.new)) }
        ensures part { IfErr result (λ _. (n : ℕ) × (n ≤ length bytes.now) × Sends bytes.now n (station_clock self.old) (station_clock self.new)) }
        ensures cause { HasCause (station_counts self.old) (station_counts self.new) result }

        // It takes the whole piece, or as much of it as it may.
        ensures most { IfOk result (λ n. n ≡ min self.old.most (length bytes.now)) }
        ensures call { IsCall false self.old self.new result }
        ensures attached { is_attached self.new ≡ is_attached self.old }
    {
        self.meter.begin(false)?;
        let count = self.most.min(bytes.len());
        if let Err(_) = self
            .disk
            .send(self.alloc, self.meter.calls, &bytes[..count])
        {
            return Err(self.meter.starve());
        }
        Ok(count)
    }
}
