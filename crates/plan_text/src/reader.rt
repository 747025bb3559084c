ghost use Rattle.std.specs.Prelude.{◌≡◌, ◌<◌, ◌+◌, ◌^◌, List, length, IfOk};
ghost use Rattle.fleet_base.specs.declared.geometry.Cell.{Cell};
ghost use Rattle.fleet_base.specs.Plan.{HasRobots};
ghost use Rattle.plan_text.specs.PlanText.{IsPlanText, robot_lines};
ghost use Rattle.plan_text.specs.PlanErrors.{PlanFaultIs, ReadsAs};

use crate::fault::{PlanError, PlanFault, PlanKind};
use crate::line::read_line;
use crate::lines::next_line;
use fleet_base::RawPlan;
use std::alloc::Global;

/// The plan that a text means: a line for each robot.
///
/// `Fault` comes exactly where the text is not in the grammar. It names the first line that is none of its robot, and
/// the column behind the longest front of that line that begins a line of the robot.
pub fn read_plan(alloc: Global, bytes: &[u8]) -> Result<RawPlan, PlanError>
    requires { length bytes.now + 1 < 2 ^ 32 }
    ensures read { IfOk result (IsPlanText bytes.now) }
    ensures robots { IfOk result HasRobots }
    ensures only { (plan : List (List Cell)) → IsPlanText bytes.now plan → ReadsAs plan result }
    ensures fault { PlanFaultIs (robot_lines bytes.now) result }
{
    let mut plan = RawPlan::new(alloc);
    let mut robot = 0;
    let mut rest = bytes;
    while let Some((line, after)) = next_line(rest) {
        let path = read_line(alloc, robot, line)?;
        plan.push_path(path)?;
        robot += 1;
        rest = after;
    }
    if robot == 0 {
        return Err(PlanError::Fault(PlanFault {
            line: 1,
            column: 1,
            kind: PlanKind::Empty,
        }));
    }
    Ok(plan)
}
