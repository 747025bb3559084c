// Frames are read in two pieces: the gate with the length behind it, and then the payload.
ghost use Rattle.std.specs.Prelude.{◌≡◌, length, IfOk, IfErr, IsErrOf};
ghost use Rattle.station_api.specs.Scene.{side_of};
ghost use Rattle.station_api.specs.Disk.{IsQuiet};
ghost use Rattle.station_api.specs.Causes.{Counted, HasCause, IsToBlame};
ghost use Rattle.fleet_journal.specs.Reading.{IsFront, SaysFront, IsFrameAt, FitsFront, IsFaultOrMemory};

use crate::JournalError;
use station_api::{DiskSide, Failed, Station};
use std::alloc::Global;

/// The first bytes of a frame, and where the side ends.
#[derive(Clone, Copy)]
pub struct Front {
    /// Its gate, or 0 past the end of the side.
    pub gate: u8,
    /// How long the payload is said to be.
    pub size: u32,
    /// The length of the side.
    pub end: u64,
}

/// Reads the gate at a place, and the length behind it.
pub fn front_at<T: Station>(station: &mut T, side: DiskSide, place: u64) -> Result<Front, Failed>
    ensures front { T.tells → IfOk result (IsFront (side_of side (T.clock station.old).seen) place) }
    ensures quiet { T.tells → IsQuiet (T.clock station.old) (T.clock station.new) }
    ensures cause { HasCause (T.counts station.old) (T.counts station.new) result }
{
    let mut bytes = [0; 5];
    let end = station.length(side)?;
    station.read(side, place, &mut bytes)?;
    Ok(front_of(&bytes, end))
}

fn front_of(bytes: &[u8], end: u64) -> Front
    requires { length bytes.now ≡ 5 }
    ensures { SaysFront bytes.now end result }
{
    Front {
        gate: bytes[0],
        size: u32::from_be_bytes([bytes[1], bytes[2], bytes[3], bytes[4]]),
        end,
    }
}

/// Reads the payload of the whole frame at a place, if one is there. It takes memory for this payload alone.
pub fn payload_at<T: Station>(
    alloc: Global,
    station: &mut T,
    side: DiskSide,
    place: u64,
    front: &Front,
) -> Result<Option<Vec<u8>>, JournalError>
    requires { T.tells → IsFront (side_of side (T.clock station.old).seen) place front.now }
    ensures frame { T.tells → IfOk result (IsFrameAt (side_of side (T.clock station.old).seen) place) }
    ensures within { IfOk result (FitsFront place front.now) }
    ensures quiet { T.tells → IsQuiet (T.clock station.old) (T.clock station.new) }
    ensures only { IfErr result IsFaultOrMemory }
    ensures counted { Counted (T.counts station.old) (T.counts station.new) }
    ensures cause { IsErrOf result JournalError.Station → IsToBlame (T.counts station.old) (T.counts station.new) }
{
    // The gate, the length, the payload, and the gate of the next frame.
    let needed = 6 + u64::from(front.size);
    if front.end.saturating_sub(place) < needed {
        return Ok(None);
    }
    let mut payload = zeros(alloc, front.size)?;
    let count = station.read(side, place + 5, &mut payload)?;
    if count < payload.len() {
        return Ok(None);
    }
    Ok(Some(payload))
}

fn zeros(alloc: Global, count: u32) -> Result<Vec<u8>, JournalError>
    ensures length { IfOk result (λ v. length v.items ≡ count) }
    ensures only { IfErr result (λ e. e ≡ JournalError.Memory) }
{
    Ok(vec![in alloc; 0; count as usize]?)
}
