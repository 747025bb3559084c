// Whether a journal has room for one more entry.
ghost use Rattle.std.specs.Prelude.{◌≡◌, ◌↔◌, ◌<◌, ◌^◌, IsTrue, length};
ghost use Rattle.fleet_base.specs.State.{IsFleetOf};
ghost use Rattle.fleet_serve.specs.Room.{open_count, counted_length, HasRoom};

use fleet_base::{Fleet, PairId, Report};
use fleet_journal::Journal;
use plan_graph::{PlanGraph, is_open};

/// The greatest number of a report.
const LAST_COUNT: u64 = 1 << 62;

/// Whether a side of this limit has room for the frame of a report, as if every open pair were switched for it, and for the
/// gate behind it, and the report has a number.
pub fn has_room(
    graph: &PlanGraph,
    fleet: &Fleet,
    journal: &Journal,
    report: &Report,
    side_limit: u64,
) -> bool
    requires { IsFleetOf graph.now fleet.now }
    ensures room { IsTrue result ↔ HasRoom graph.now side_limit journal.now.place fleet.now report.now }
    ensures bound { side_limit < 2 ^ 64 }
{
    fleet.count() < LAST_COUNT && journal.fits(counted_length(graph, fleet, report), side_limit)
}

/// How long the payload of a report is counted.
fn counted_length(graph: &PlanGraph, fleet: &Fleet, report: &Report) -> u64
    requires { IsFleetOf graph.now fleet.now }
    ensures { result ≡ counted_length graph.now fleet.now report.now }
{
    match report {
        Report::Arrive { .. } => 17,
        Report::Delay { .. } => 25 + 4 * u64::from(open_count(graph, fleet)),
    }
}

/// How many pairs are open.
fn open_count(graph: &PlanGraph, fleet: &Fleet) -> u32
    requires { IsFleetOf graph.now fleet.now }
    ensures { result ≡ open_count graph.now fleet.now }
{
    let mut count = 0;
    for number in 0..graph.pair_count() {
        if is_open(graph, fleet, PairId(number)) {
            count += 1;
        }
    }
    count
}
