// What one side is.
ghost use Rattle.std.specs.Prelude.{IfOk, IfErr, IsErrOf};
ghost use Rattle.station_api.specs.Scene.{side_of};
ghost use Rattle.station_api.specs.Disk.{IsQuiet};
ghost use Rattle.station_api.specs.Causes.{Counted, IsToBlame};
ghost use Rattle.journal_frame.specs.Frames.{IsLive};
ghost use Rattle.fleet_journal.specs.Reading.{IsFoundOn, IsFaultOrMemory};

use crate::JournalError;
use crate::measure::begins_with_header;
use crate::reading::{front_at, payload_at};
use journal_frame::{FrameError, HeaderParts, read_header};
use station_api::{DiskSide, Station};
use std::alloc::Global;

#[derive(Drop)]
pub enum Found {
    /// At most one byte, or a closed header gate; clean where nothing but a closed gate stands.
    Blank { clean: bool },
    /// A header, whose payload has this length.
    Live { header: HeaderParts, size: u32 },
    /// Anything else.
    Foreign,
}

/// Reads what a side begins with.
pub fn look_at<T: Station>(
    alloc: Global,
    station: &mut T,
    side: DiskSide,
) -> Result<Found, JournalError>
    ensures found { T.tells → IfOk result (IsFoundOn (side_of side (T.clock station.old).seen)) }
    ensures quiet { T.tells → IsQuiet (T.clock station.old) (T.clock station.new) }
    ensures only { IfErr result IsFaultOrMemory }
    // Memory is taken for a header alone.
    ensures no_want { T.tells → IsErrOf result JournalError.Memory → IsLive (side_of side (T.clock station.old).seen) }
    ensures counted { Counted (T.counts station.old) (T.counts station.new) }
    ensures cause { IsErrOf result JournalError.Station → IsToBlame (T.counts station.old) (T.counts station.new) }
{
    let front = front_at(station, side, 0)?;
    if front.end <= 1 || front.gate == 0 {
        let clean = front.end == 0 || (front.end == 1 && front.gate == 0);
        return Ok(Found::Blank { clean });
    }
    if !begins_with_header(station, side, &front)? {
        return Ok(Found::Foreign);
    }
    let Some(payload) = payload_at(alloc, station, side, 0, &front)? else {
        return Ok(Found::Foreign);
    };
    match read_header(alloc, &payload) {
        Ok(header) => Ok(Found::Live {
            header,
            size: front.size,
        }),
        Err(FrameError::NotInGrammar) => Ok(Found::Foreign),
        Err(FrameError::Memory) => Err(JournalError::Memory),
    }
}
