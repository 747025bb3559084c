// A text that ends a command.
ghost use Rattle.station_api.specs.Causes.{Counted};
ghost use Rattle.station_api.specs.Disk.{IsSending};
ghost use Rattle.fleet_serve.specs.Spans.{span, sent_over};
ghost use Rattle.fleet_cli.specs.Runs.{HasFailed};
ghost use Rattle.fleet_cli.specs.Tasks.{EndsWith};

use fleet_base::Status;
use fleet_serve::send_all;
use station_api::Station;

/// Sends a text and ends with a status, or with a fault of the station.
pub fn say<T: Station>(station: &mut T, text: &[u8], status: Status) -> Status
    ensures ends { EndsWith status text.now (sent_over (span T.tells (T.clock station.old) (T.clock station.new))) (HasFailed (T.counts station.old) (T.counts station.new)) result }
    ensures sides { T.tells → IsSending (T.clock station.old) (T.clock station.new) }
    ensures counted { Counted (T.counts station.old) (T.counts station.new) }
{
    match send_all(station, text) {
        Ok(()) => status,
        Err(_) => Status::StationFault,
    }
}
