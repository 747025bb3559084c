// What a session sends when it opens.
ghost use Rattle.std.specs.Prelude.{◌≡◌, ◌++◌, ◌<◌, length, IfOk, OnOk, IsErrOf};
ghost use Rattle.fleet_base.specs.Plan.{AreRoutes};
ghost use Rattle.fleet_base.specs.Order.{graph_of};
ghost use Rattle.fleet_base.specs.Rules.{IsFleetState};
ghost use Rattle.fleet_base.specs.Bytes.{text_of_lines};
ghost use Rattle.station_api.specs.Causes.{Counted, IsToBlame};
ghost use Rattle.station_api.specs.Disk.{IsSending};
ghost use Rattle.fleet_serve.specs.Lines.{release_lines, pending_of, greeting_of};
ghost use Rattle.fleet_serve.specs.Spans.{span, sent_over};
ghost use Rattle.fleet_serve.specs.Serving.{Said};

use crate::answer_text::push_release;
use crate::kit::Kit;
use crate::outcome::StepFault;
use crate::whole_text::send_all;
use fleet_base::{Fleet, Memory, SoundPlan, Text, Visit};
use plan_graph::PlanGraph;
use report_text::{Answer, push_answer};
use station_api::Station;
use std::alloc::Global;

/// Opens a session: sends `ready N` and every release that has not arrived, by robot, then by index.
pub fn greet<T: Station>(
    alloc: Global,
    _graph: &PlanGraph,
    plan: &SoundPlan,
    fleet: &Fleet,
    _kit: &mut Kit,
    station: &mut T,
) -> Result<(), StepFault>
    requires graph { _graph.now ≡ graph_of plan.now }
    requires state { IsFleetState (graph_of plan.now) fleet.now }
    ensures said { Said (text_of_lines (greeting_of plan.now fleet.now)) (sent_over (span T.tells (T.clock station.old) (T.clock station.new))) result }
    ensures sides { T.tells → IsSending (T.clock station.old) (T.clock station.new) }
    ensures counted { Counted (T.counts station.old) (T.counts station.new) }
    ensures cause { IsErrOf result StepFault.Station → IsToBlame (T.counts station.old) (T.counts station.new) }
    ensures memory { IsErrOf result StepFault.Memory → station.new ≡ station.old }
    ensures room { _kit.new.room ≡ _kit.old.room }
{
    let text = greeting_text(alloc, plan, fleet)?;
    send_all(station, text.as_slice())?;
    Ok(())
}

/// The text of a greeting.
fn greeting_text(alloc: Global, plan: &SoundPlan, fleet: &Fleet) -> Result<Text, Memory>
    requires { IsFleetState (graph_of plan.now) fleet.now }
    ensures { IfOk result (λ text. text ≡ text_of_lines (greeting_of plan.now fleet.now)) }
{
    let mut text = Text::new(alloc);
    let count = fleet.count();
    push_answer(&mut text, &Answer::Ready { count })?;
    for robot in 0..plan.robots() {
        push_pending(&mut text, plan, fleet, robot)?;
    }
    Ok(text)
}

/// Appends the releases of a robot that have not arrived.
fn push_pending(text: &mut Text, plan: &SoundPlan, fleet: &Fleet, robot: u32) -> Result<(), Memory>
    requires sound { AreRoutes plan.now }
    requires state { IsFleetState (graph_of plan.now) fleet.now }
    requires robot { robot < length plan.now }
    ensures { OnOk result (text.new ≡ text.old ++ text_of_lines (release_lines plan.now (pending_of fleet.now robot))) }
{
    for index in fleet.arrived(robot)..fleet.released(robot) {
        let visit = Visit {
            robot,
            index: index + 1,
        };
        push_release(text, plan, visit)?;
    }
    Ok(())
}
