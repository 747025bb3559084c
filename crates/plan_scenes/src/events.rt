// Reports, with the pairs that they are to switch.
ghost use Rattle.std.specs.Prelude.{◌≡◌, Some, None};
ghost use Rattle.fleet_base.specs.declared.report.Report.TheVariants.{Arrive, Delay};

use fleet_base::{PairId, Report};

/// A report, and the pair that it is to switch, if it is to switch one.
pub type Event = (Report, Option<PairId>);

/// A robot has arrived at a visit.
pub fn arrive(robot: u64, index: u64, tick: u64) -> Event
    ensures report { result.0 ≡ Arrive robot index tick }
    ensures pair { result.1 ≡ None }
{
    (Report::Arrive { robot, index, tick }, None)
}

/// The move to a visit takes so many ticks longer.
pub fn delay(robot: u64, index: u64, extra: u64, tick: u64) -> Event
    ensures report { result.0 ≡ Delay robot index extra tick }
    ensures pair { result.1 ≡ None }
{
    let report = Report::Delay {
        robot,
        index,
        extra,
        tick,
    };
    (report, None)
}

/// The same report with a pair that it is to switch.
pub fn switching(event: Event, pair: u32) -> Event
    ensures report { result.0 ≡ event.0 }
    ensures pair { result.1 ≡ Some (record { 0 = pair }) }
{
    (event.0, Some(PairId(pair)))
}
