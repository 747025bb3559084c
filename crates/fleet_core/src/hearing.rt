// The state with a report applied.
ghost use Rattle.std.specs.Prelude.{◌≡◌, ◌<◌, ◌^◌, IfOk};
ghost use Rattle.fleet_core.specs.declared.judging.Judged.TheVariants.{Accept};
ghost use Rattle.fleet_core.specs.Judgement.{judgement_of};
ghost use Rattle.fleet_core.specs.Step.{heard_of};
ghost use Rattle.fleet_base.specs.Limits.{report_limit};

use fleet_base::{Fleet, Memory, Report, Visit};
use std::alloc::Global;

/// A copy of the fleet with an accepted report applied, before any switch and release: the new arrival or delay, the report's
/// tick as the moment, and one report more.
pub fn heard(alloc: Global, fleet: &Fleet, report: &Report) -> Result<Fleet, Memory>
    requires accepted { judgement_of fleet.now report.now ≡ Accept }
    requires count { fleet.now.count < report_limit }
    ensures { IfOk result (λ other. other ≡ heard_of fleet.now report.now) }
{
    let mut other = fleet.copy(alloc)?;
    hear(&mut other, report);
    Ok(other)
}

/// Applies an accepted report to the fleet.
pub(crate) fn hear(fleet: &mut Fleet, report: &Report)
    requires accepted { judgement_of fleet.old report.now ≡ Accept }
    requires count { fleet.old.count < report_limit }
    ensures { fleet.new ≡ heard_of fleet.old report.now }
{
    let count = fleet.count() + 1;
    // The number of robots has 32 bits, and so has that of a robot that is there.
    let _robots = fleet.robots();
    match *report {
        Report::Arrive { robot, tick, .. } => {
            fleet.push_arrival(robot as u32, tick);
            fleet.set_now(tick);
        }
        Report::Delay {
            robot,
            index,
            extra,
            tick,
        } => {
            let robot = robot as u32;
            // The number of the last visit has 32 bits, and so has one that is not above it.
            let _last = fleet.last(robot);
            let index = index as u32;
            let visit = Visit { robot, index };
            fleet.set_delay(visit, extra);
            fleet.set_now(tick);
        }
    }
    fleet.set_count(count);
}
