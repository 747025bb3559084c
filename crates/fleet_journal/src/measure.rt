// The length that a frame says is not believed: before memory is taken for a payload, its own fields have to say the same.
ghost use Rattle.std.specs.Prelude.{ℕ, List, ◌≡◌, ◌<◌, ◌^◌, ◌↔◌, length, drop, IsTrue, IfOk, IfSome, IfNone};
ghost use Rattle.std.specs.Int.{w32, to_be_bytes};
ghost use Rattle.station_api.specs.Scene.{side_of};
ghost use Rattle.station_api.specs.Disk.{IsQuiet};
ghost use Rattle.station_api.specs.Causes.{HasCause};
ghost use Rattle.journal_frame.specs.Entries.{IsEntryPayload};
ghost use Rattle.journal_frame.specs.Frames.{HasFrame};
ghost use Rattle.fleet_journal.specs.Reading.{IsFront};
ghost use Rattle.fleet_journal.specs.Measures.{header_start, BeginsWithHeader, HasMeasuredFrame};

use crate::reading::Front;
use station_api::{DiskSide, Failed, Station};

/// The first bytes of a header: `FLET`, version 1, and generation 1 in eight bytes. The length of its map follows.
const START: &[u8] = b"FLET\x01\0\0\0\0\0\0\0\x01";

/// The number that four bytes are, big-endian.
fn number_of(four: &[u8]) -> u32
    requires { length four.now ≡ 4 }
    ensures bytes { four.now ≡ to_be_bytes w32 result }
    ensures short { result < 2 ^ 32 }
{
    u32::from_be_bytes([four[0], four[1], four[2], four[3]])
}

/// How long the map of a header is that begins so, if one does.
fn map_size(head: &[u8]) -> Option<u32>
    requires { length head.now ≡ 17 }
    ensures size { IfSome result (λ m. (head.now ≡ header_start m) × (m < 2 ^ 32)) }
    ensures none { IfNone result ((m : ℕ) → ¬ (head.now ≡ header_start m)) }
{
    let (start, size) = head.split_at(START.len());
    if start != START {
        return None;
    }
    Some(number_of(size))
}

/// Whether a side begins with a whole frame of a header. It reads the fields of fixed length, and takes no memory.
pub fn begins_with_header<T: Station>(
    station: &mut T,
    side: DiskSide,
    front: &Front,
) -> Result<bool, Failed>
    requires { T.tells → IsFront (side_of side (T.clock station.old).seen) 0 front.now }
    ensures header { T.tells → IfOk result (λ yes. IsTrue yes ↔ BeginsWithHeader (side_of side (T.clock station.old).seen)) }
    ensures quiet { T.tells → IsQuiet (T.clock station.old) (T.clock station.new) }
    ensures cause { HasCause (T.counts station.old) (T.counts station.new) result }
{
    let size = u64::from(front.size);
    if front.end < 6 + size {
        return Ok(false);
    }
    let mut head = [0; 17];
    station.read(side, 5, &mut head)?;
    let Some(map) = map_size(&head) else {
        return Ok(false);
    };
    let behind_map = 22 + u64::from(map);
    let mut plan = [0; 4];
    station.read(side, behind_map, &mut plan)?;
    let mut tag = [0];
    station.read(side, 4 + size, &mut tag)?;
    if behind_map + u64::from(number_of(&plan)) != size {
        return Ok(false);
    }
    if tag[0] != 0 {
        return Ok(false);
    }
    Ok(true)
}

/// A payload that is no longer is read whatever its fields say.
const SHORT: u32 = 1 << 16;

/// Whether an entry may stand in the whole frame at a place, by its length: it is short, or just as long as the count of
/// pairs in it says. It takes no memory.
pub fn is_measured<T: Station>(
    station: &mut T,
    side: DiskSide,
    place: u64,
    front: &Front,
) -> Result<bool, Failed>
    requires { T.tells → IsFront (side_of side (T.clock station.old).seen) place front.now }
    ensures no_entry { T.tells → IfOk result (λ yes. ¬ IsTrue yes → (gate : ℕ) (payload : List ℕ) → IsEntryPayload payload → ¬ HasFrame (drop place (side_of side (T.clock station.old).seen)) gate payload) }
    ensures measured { T.tells → IfOk result (λ yes. IsTrue yes → HasMeasuredFrame (drop place (side_of side (T.clock station.old).seen))) }
    ensures quiet { T.tells → IsQuiet (T.clock station.old) (T.clock station.new) }
    ensures cause { HasCause (T.counts station.old) (T.counts station.new) result }
{
    let size = u64::from(front.size);
    if front.end.saturating_sub(place) < 6 + size {
        return Ok(false);
    }
    if front.size <= SHORT {
        return Ok(true);
    }
    let mut count = [0; 4];
    station.read(side, place + 26, &mut count)?;
    if 25 + 4 * u64::from(number_of(&count)) != size {
        return Ok(false);
    }
    Ok(true)
}
