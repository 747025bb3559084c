// The journal's disk and the answer line, as one object, so that a stop leaves both at one moment.
ghost use Rattle.std.specs.Prelude.{◌≡◌, ◌<◌, ◌≤◌, ℕ, length, IfOk, OnOk, IfErr, IsErrOf};
ghost use Rattle.station_api.specs.Scene.{side_of};
ghost use Rattle.station_api.specs.Clock.{Clock};
ghost use Rattle.station_api.specs.Disk.{Torn, Shortened, Reaches, IsQuiet, IsStep, IsSending, IsSynced, Writes, Cuts, Sends, Reads};
ghost use Rattle.station_api.specs.Causes.{Counts, Counted, HasCause, IsToBlame};

use std::alloc::Global;
use thiserror::Error;

/// The call failed, and the object's count of faults rose.
#[derive(Clone, Copy, Debug, PartialEq, Eq, Error)]
#[error("the device failed")]
pub struct Failed;

/// A side of the journal's disk.
#[derive(Clone, Copy, Debug, PartialEq, Eq)]
pub enum DiskSide {
    A,
    B,
}

impl DiskSide {
    ghost use Rattle.station_api.specs.Scene.{other_of};

    /// The side that this one is not.
    pub fn other(self) -> DiskSide
        ensures { result ≡ other_of self }
    {
        match self {
            DiskSide::A => DiskSide::B,
            DiskSide::B => DiskSide::A,
        }
    }
}

/// Why a journal was not attached: the station failed, and its count of faults rose, or there was no memory.
#[derive(Clone, Copy, Debug, PartialEq, Eq, Error)]
pub enum AttachFault {
    #[error("the station failed")]
    Failed,
    #[error("out of memory")]
    Memory,
}

/// The journal's two sides, and the line that answers go out on.
pub trait Station {
    /// That the station tells what it holds. A real disk and line do not.
    ghost tells: { Type 0 };

    /// What it holds, and what a stop may leave.
    ghost clock: { Self → Clock };

    /// How often it has failed.
    ghost counts: { Self → Counts };

    /// Names the journal. A call on a side before an `attach` that answered Ok is a fault.
    fn attach(&mut self, alloc: Global, name: &str) -> Result<(), AttachFault>
        ensures quiet { tells → IsQuiet (clock self.old) (clock self.new) }
        ensures counted { Counted (counts self.old) (counts self.new) }
        ensures cause { IsErrOf result AttachFault.Failed → IsToBlame (counts self.old) (counts self.new) };

    /// How long a side is.
    fn length(&mut self, side: DiskSide) -> Result<u64, Failed>
        ensures quiet { tells → IsQuiet (clock self.old) (clock self.new) }
        ensures length { tells → IfOk result (λ n. n ≡ length (side_of side (clock self.old).seen)) }
        ensures cause { HasCause (counts self.old) (counts self.new) result };

    /// The bytes that stand at a place, as many as the room and the side allow.
    fn read(&mut self, side: DiskSide, at: u64, room: &mut [u8]) -> Result<usize, Failed>
        ensures bound { IfOk result (λ n. n ≤ length room.new) }
        ensures quiet { tells → IsQuiet (clock self.old) (clock self.new) }
        ensures bytes { tells → IfOk result (λ n. Reads (side_of side (clock self.old).seen) at n room.old room.new) }
        ensures cause { HasCause (counts self.old) (counts self.new) result };

    /// Writes over what stands there, and past the end. Until a sync a stop may leave any bytes in the range, and any
    /// length between the old one and the new one.
    fn write_at(&mut self, side: DiskSide, at: u64, bytes: &[u8]) -> Result<(), Failed>
        requires { tells → Reaches side at (clock self.old) }
        ensures step { tells → IsStep side (Torn at (length bytes.now)) (clock self.old) (clock self.new) }
        ensures written { tells → OnOk result (Writes side at bytes.now (clock self.old) (clock self.new)) }
        ensures cause { HasCause (counts self.old) (counts self.new) result };

    /// Cuts a side to a length. Until a sync a stop may leave any bytes in the range that goes, and any length between.
    fn cut(&mut self, side: DiskSide, length: u64) -> Result<(), Failed>
        requires { tells → Reaches side length (clock self.old) }
        ensures step { tells → IsStep side (Shortened length) (clock self.old) (clock self.new) }
        ensures shortened { tells → OnOk result (Cuts side length (clock self.old) (clock self.new)) }
        ensures cause { HasCause (counts self.old) (counts self.new) result };

    /// After an Ok a stop leaves of this side what a read gives.
    fn sync(&mut self, side: DiskSide) -> Result<(), Failed>
        ensures quiet { tells → IsQuiet (clock self.old) (clock self.new) }
        ensures synced { tells → OnOk result (IsSynced side (clock self.new)) }
        ensures cause { HasCause (counts self.old) (counts self.new) result };

    /// Sends a front of these bytes, at least one byte of them, and says how many.
    fn send(&mut self, bytes: &[u8]) -> Result<usize, Failed>
        ensures bound { IfOk result (λ n. n ≤ length bytes.now) }
        ensures some { IfOk result (λ n. 0 < length bytes.now → 0 < n) }
        ensures sending { tells → IsSending (clock self.old) (clock self.new) }
        ensures sent { tells → IfOk result (λ n. Sends bytes.now n (clock self.old) (clock self.new)) }
        ensures part { tells → IfErr result (λ _. (n : ℕ) × (n ≤ length bytes.now) × Sends bytes.now n (clock self.old) (clock self.new)) }
        ensures cause { HasCause (counts self.old) (counts self.new) result };
}

ghost use Rattle.station_api.specs.Clock.{LeavesOnly, IsKept};

/// Syncs both sides.
pub fn sync_both<T: Station>(station: &mut T) -> Result<(), Failed>
    ensures quiet { T.tells → IsQuiet (T.clock station.old) (T.clock station.new) }
    ensures kept { T.tells → OnOk result (IsKept (T.clock station.new)) }
    ensures cause { HasCause (T.counts station.old) (T.counts station.new) result }
{
    station.sync(DiskSide::A)?;
    station.sync(DiskSide::B)?;
    Ok(())
}
