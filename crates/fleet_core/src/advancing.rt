// The step of a report that switches no pair.
ghost use Rattle.std.specs.Prelude.{◌≡◌, ◌<◌, ◌^◌, []};
ghost use Rattle.fleet_base.specs.Rules.{IsFleetState};
ghost use Rattle.fleet_base.specs.Limits.{report_limit};
ghost use Rattle.release_rule.specs.Releasing.{IsOutFor};
ghost use Rattle.fleet_core.specs.declared.judging.Judged.TheVariants.{Accept};
ghost use Rattle.fleet_core.specs.Judgement.{judgement_of};
ghost use Rattle.fleet_core.specs.Step.{Step};

use crate::applying::release;
use crate::hearing::hear;
use fleet_base::{Fleet, Report};
use plan_graph::PlanGraph;
use release_rule::{Out, kept_order_releases};

/// Makes the step of an accepted report that switches no pair, in place; `out` then has the visits that it releases. It takes
/// no memory, and its work is in proportion to the robots and the pairs of the visits looked at.
pub fn advance(graph: &PlanGraph, fleet: &mut Fleet, report: &Report, out: &mut Out)
    requires state { IsFleetState graph.now fleet.old }
    requires accepted { judgement_of fleet.old report.now ≡ Accept }
    requires count { fleet.old.count < report_limit }
    requires out { IsOutFor graph.now out.old }
    ensures step { Step graph.now fleet.old report.now [] out.new.list fleet.new }
    ensures rules { IsFleetState graph.now fleet.new }
    ensures fits { IsOutFor graph.now out.new }
{
    hear(fleet, report);
    kept_order_releases(graph, fleet, out);
    let tick = fleet.now();
    release(fleet, out.list(), tick);
}
