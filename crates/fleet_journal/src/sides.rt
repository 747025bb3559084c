// A side is cleared, cut, or gets a header, by steps of which a stop leaves nothing that would be taken.
ghost use Rattle.std.specs.Prelude.{◌≡◌, [], ◌∷◌, OnOk};
ghost use Rattle.station_api.specs.Scene.{side_of};
ghost use Rattle.station_api.specs.Clock.{LeavesOnly, IsKept};
ghost use Rattle.station_api.specs.Disk.{Changes, Shortened};
ghost use Rattle.station_api.specs.Causes.{HasCause};
ghost use Rattle.fleet_journal.specs.Sides.{IsClean};
ghost use Rattle.fleet_journal.specs.Clearing.{IsCleared, Shuts, IsCut, Clears, ClearsLong, HasGate, HasText, GetsText};

use crate::OtherSide;
use station_api::{DiskSide, Failed, Station};

/// Closes a side's header gate. A closed one is not written: a written byte may hold anything at a stop, and behind it
/// there may stand a header that was never opened.
fn shut<T: Station>(station: &mut T, side: DiskSide) -> Result<(), Failed>
    ensures shuts { T.tells → OnOk result (Changes side Shuts (T.clock station.old).seen (T.clock station.new).seen) }
    ensures kept { T.tells → OnOk result (IsKept (T.clock station.old) → IsKept (T.clock station.new)) }
    ensures any_moment { T.tells → IsKept (T.clock station.old) → LeavesOnly (Changes side IsCleared (T.clock station.old).seen) (T.clock station.old) (T.clock station.new) }
    ensures quiet { T.tells → (T.clock station.new).seen.sent ≡ (T.clock station.old).seen.sent }
    ensures cause { HasCause (T.counts station.old) (T.counts station.new) result }
{
    let mut first = [0];
    let count = station.read(side, 0, &mut first)?;
    if count == 0 || first[0] == 0 {
        return Ok(());
    }
    station.write_at(side, 0, &[0])?;
    station.sync(side)?;
    Ok(())
}

/// Cuts a side to a length, if it is longer.
pub fn cut_behind<T: Station>(station: &mut T, side: DiskSide, length: u64) -> Result<(), Failed>
    ensures cuts { T.tells → OnOk result (Changes side (IsCut length) (T.clock station.old).seen (T.clock station.new).seen) }
    ensures kept { T.tells → OnOk result (IsKept (T.clock station.old) → IsKept (T.clock station.new)) }
    ensures any_moment { T.tells → IsKept (T.clock station.old) → LeavesOnly (Changes side (Shortened length) (T.clock station.old).seen) (T.clock station.old) (T.clock station.new) }
    ensures quiet { T.tells → (T.clock station.new).seen.sent ≡ (T.clock station.old).seen.sent }
    ensures cause { HasCause (T.counts station.old) (T.counts station.new) result }
{
    if station.length(side)? <= length {
        return Ok(());
    }
    station.cut(side, length)?;
    station.sync(side)?;
    Ok(())
}

/// Clears a side: it is empty then, or one closed gate. Until then a stop leaves it as it was, or blank, or with
/// another open gate.
pub fn clear<T: Station>(station: &mut T, side: DiskSide) -> Result<(), Failed>
    ensures clears { T.tells → OnOk result (Changes side Clears (T.clock station.old).seen (T.clock station.new).seen) }
    ensures kept { T.tells → OnOk result (IsKept (T.clock station.old) → IsKept (T.clock station.new)) }
    ensures any_moment { T.tells → IsKept (T.clock station.old) → LeavesOnly (Changes side IsCleared (T.clock station.old).seen) (T.clock station.old) (T.clock station.new) }
    ensures quiet { T.tells → (T.clock station.new).seen.sent ≡ (T.clock station.old).seen.sent }
    ensures cause { HasCause (T.counts station.old) (T.counts station.new) result }
{
    shut(station, side)?;
    cut_behind(station, side, 1)?;
    Ok(())
}

/// Clears a side of more than one byte.
pub fn clear_long<T: Station>(station: &mut T, side: DiskSide) -> Result<(), Failed>
    ensures clears { T.tells → OnOk result (Changes side ClearsLong (T.clock station.old).seen (T.clock station.new).seen) }
    ensures kept { T.tells → OnOk result (IsKept (T.clock station.old) → IsKept (T.clock station.new)) }
    ensures any_moment { T.tells → IsKept (T.clock station.old) → LeavesOnly (Changes side IsCleared (T.clock station.old).seen) (T.clock station.old) (T.clock station.new) }
    ensures quiet { T.tells → (T.clock station.new).seen.sent ≡ (T.clock station.old).seen.sent }
    ensures cause { HasCause (T.counts station.old) (T.counts station.new) result }
{
    if station.length(side)? <= 1 {
        return Ok(());
    }
    clear(station, side)?;
    Ok(())
}

/// Clears a side unless it is known to be clean.
pub fn clear_unless_clean<T: Station>(
    station: &mut T,
    side: DiskSide,
    is: OtherSide,
) -> Result<(), Failed>
    requires { T.tells → is ≡ OtherSide.Clean → IsClean (side_of side (T.clock station.old).seen) }
    ensures clears { T.tells → OnOk result (Changes side Clears (T.clock station.old).seen (T.clock station.new).seen) }
    ensures kept { T.tells → OnOk result (IsKept (T.clock station.old) → IsKept (T.clock station.new)) }
    ensures any_moment { T.tells → IsKept (T.clock station.old) → LeavesOnly (Changes side IsCleared (T.clock station.old).seen) (T.clock station.old) (T.clock station.new) }
    ensures quiet { T.tells → (T.clock station.new).seen.sent ≡ (T.clock station.old).seen.sent }
    ensures cause { HasCause (T.counts station.old) (T.counts station.new) result }
{
    match is {
        OtherSide::Clean => Ok(()),
        OtherSide::ToClear => clear(station, side),
    }
}

/// Puts a closed gate on a clean side.
pub fn put_gate<T: Station>(station: &mut T, side: DiskSide) -> Result<(), Failed>
    requires { T.tells → IsClean (side_of side (T.clock station.old).seen) }
    ensures puts { T.tells → OnOk result (Changes side HasGate (T.clock station.old).seen (T.clock station.new).seen) }
    ensures kept { T.tells → OnOk result (IsKept (T.clock station.old) → IsKept (T.clock station.new)) }
    ensures any_moment { T.tells → IsKept (T.clock station.old) → LeavesOnly (Changes side IsCleared (T.clock station.old).seen) (T.clock station.old) (T.clock station.new) }
    ensures quiet { T.tells → (T.clock station.new).seen.sent ≡ (T.clock station.old).seen.sent }
    ensures cause { HasCause (T.counts station.old) (T.counts station.new) result }
{
    if station.length(side)? > 0 {
        return Ok(());
    }
    station.write_at(side, 0, &[0])?;
    station.sync(side)?;
    Ok(())
}

/// Writes a header behind the closed gate of a side that has nothing else, and opens the gate.
pub fn put_header<T: Station>(station: &mut T, side: DiskSide, text: &[u8]) -> Result<(), Failed>
    requires { T.tells → side_of side (T.clock station.old).seen ≡ 0 ∷ [] }
    ensures puts { T.tells → OnOk result (Changes side (HasText text.now) (T.clock station.old).seen (T.clock station.new).seen) }
    ensures kept { T.tells → OnOk result (IsKept (T.clock station.old) → IsKept (T.clock station.new)) }
    ensures any_moment { T.tells → IsKept (T.clock station.old) → LeavesOnly (Changes side (GetsText text.now) (T.clock station.old).seen) (T.clock station.old) (T.clock station.new) }
    ensures quiet { T.tells → (T.clock station.new).seen.sent ≡ (T.clock station.old).seen.sent }
    ensures cause { HasCause (T.counts station.old) (T.counts station.new) result }
{
    station.write_at(side, 1, text)?;
    station.sync(side)?;
    station.write_at(side, 0, &[1])?;
    station.sync(side)?;
    Ok(())
}
