// Sending a text whole.
ghost use Rattle.std.specs.Prelude.{◌≡◌, ◌++◌, ℕ, take, OnOk, OnErr};
ghost use Rattle.station_api.specs.Causes.{HasCause};
ghost use Rattle.station_api.specs.Disk.{IsSending};

use station_api::{Failed, Station};

/// Sends all of these bytes, piece by piece as the station takes them.
pub fn send_all<T: Station>(station: &mut T, bytes: &[u8]) -> Result<(), Failed>
    ensures sent { T.tells → OnOk result ((T.clock station.new).seen.sent ≡ (T.clock station.old).seen.sent ++ bytes.now) }
    ensures part { T.tells → OnErr result ((n : ℕ) × ((T.clock station.new).seen.sent ≡ (T.clock station.old).seen.sent ++ take n bytes.now)) }
    ensures sides { T.tells → IsSending (T.clock station.old) (T.clock station.new) }
    ensures cause { HasCause (T.counts station.old) (T.counts station.new) result }
{
    let mut sent = 0;
    while sent < bytes.len() {
        sent += station.send(&bytes[sent..])?;
    }
    Ok(())
}
