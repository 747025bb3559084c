// The turn of one report line.
ghost use Rattle.std.specs.Prelude.{◌≡◌, ◌^◌, ◌<◌, length, Err, IfOk, IfErr, IsErrOf};
ghost use Rattle.fleet_base.specs.Order.{graph_of};
ghost use Rattle.fleet_base.specs.Rules.{IsFleetState};
ghost use Rattle.station_api.specs.Causes.{Counted, IsToBlame};
ghost use Rattle.fleet_recovery.specs.Opening.{StandsWith, IsAtRest};
ghost use Rattle.fleet_recovery.specs.Papers.{papers_in};
ghost use Rattle.fleet_serve.specs.Serving.{StepLeaves, course, terms, terms_of, stand};
ghost use Rattle.fleet_serve.specs.Spans.{span};
ghost use Rattle.search_nodes.specs.Rooms.{IsRoomFor};
ghost use Rattle.fleet_serve.specs.Deciding.{IsReady};

use crate::decision::{Decision, Reply, decide};
use crate::kept_entry::keep;
use crate::kit::Kit;
use crate::outcome::{StepFault, Turn};
use crate::session::{Session, Settings};
use crate::whole_text::send_all;
use fleet_base::{Fleet, SoundPlan};
use fleet_journal::Journal;
use fleet_recovery::Papers;
use plan_graph::PlanGraph;
use station_api::Station;
use std::alloc::Global;

/// Answers one report line: judges it, sees whether there is room for its frame, makes its entry, the frame and the text of
/// the answer, appends the frame to the journal, applies the entry, and then sends the text. All memory is taken before
/// anything changes, is written or is sent, so for want of memory all is as before. After a fault of the station the session
/// is over.
///
/// The journal stands at its closed gate, on the side taken, and the sides stand for the fleet.
pub fn step<T: Station>(
    alloc: Global,
    graph: &PlanGraph,
    plan: &SoundPlan,
    fleet: &mut Fleet,
    journal: &mut Journal,
    kit: &mut Kit,
    settings: &Settings,
    papers: &Papers<'_>,
    line: &[u8],
    station: &mut T,
) -> Result<Turn, StepFault>
    requires graph { graph.now ≡ graph_of plan.now }
    requires state { IsFleetState graph.now fleet.old }
    requires line { length line.now < 2 ^ 32 }
    requires room { IsRoomFor graph.now kit.old.room }
    requires stands { T.tells → StandsWith plan.now (papers_in papers.now) journal.old fleet.old (T.clock station.old).seen }

    // The turn of the line is made. At each moment a stop leaves sides that hold the state before the turn or after it, and
    // nothing of an entry's text is sent before the entry is kept.
    ensures turn { StepLeaves (course (terms plan.now papers.now settings.now) (stand fleet.old journal.old) (stand fleet.new journal.new) (span T.tells (T.clock station.old) (T.clock station.new))) line.now result }
    ensures rules { IsFleetState graph.now fleet.new }
    ensures room { IsRoomFor graph.now kit.new.room }

    // Except after a fault of the station, the sides stand for the fleet, and station and journal are at rest where they were.
    ensures stands { T.tells → (IsErrOf result StepFault.Station → ⊥) → StandsWith plan.now (papers_in papers.now) journal.new fleet.new (T.clock station.new).seen }
    ensures rests { T.tells → (IsErrOf result StepFault.Station → ⊥) → IsAtRest plan.now (papers_in papers.now) journal.old fleet.old (T.clock station.old) → IsAtRest plan.now (papers_in papers.now) journal.new fleet.new (T.clock station.new) }

    // For want of memory all is as before.
    ensures memory { IsErrOf result StepFault.Memory → station.new ≡ station.old }
    ensures same_journal { IsErrOf result StepFault.Memory → journal.new ≡ journal.old }
    ensures counted { Counted (T.counts station.old) (T.counts station.new) }
    ensures cause { IsErrOf result StepFault.Station → IsToBlame (T.counts station.old) (T.counts station.new) }
{
    let session = Session {
        alloc,
        graph,
        plan,
        settings,
        papers,
    };
    let reply = take_turn(&session, fleet, journal, kit, line, station)?;
    send_all(station, reply.text.as_slice())?;
    Ok(reply.turn)
}

/// Makes the turn of a report line, but does not send its text.
fn take_turn<T: Station>(
    session: &Session<'_>,
    fleet: &mut Fleet,
    journal: &mut Journal,
    kit: &mut Kit,
    line: &[u8],
    station: &mut T,
) -> Result<Reply, StepFault>
    requires graph { session.now.graph.now ≡ graph_of session.now.plan.now }
    requires state { IsFleetState session.now.graph.now fleet.old }
    requires line { length line.now < 2 ^ 32 }
    requires room { IsRoomFor session.now.graph.now kit.old.room }
    requires stands { T.tells → StandsWith session.now.plan.now (papers_in session.now.papers.now) journal.old fleet.old (T.clock station.old).seen }
    ensures ready { IfOk result (IsReady (terms_of session.now) (stand fleet.old journal.old) (stand fleet.new journal.new) (span T.tells (T.clock station.old) (T.clock station.new)) line.now) }
    ensures broken { IfErr result (λ fault. StepLeaves (course (terms_of session.now) (stand fleet.old journal.old) (stand fleet.new journal.new) (span T.tells (T.clock station.old) (T.clock station.new))) line.now (Err fault)) }
    ensures rules { IsFleetState session.now.graph.now fleet.new }
    ensures room { IsRoomFor session.now.graph.now kit.new.room }
    ensures memory { IsErrOf result StepFault.Memory → station.new ≡ station.old }
    ensures same_journal { IsErrOf result StepFault.Memory → journal.new ≡ journal.old }
    ensures counted { Counted (T.counts station.old) (T.counts station.new) }
    ensures cause { IsErrOf result StepFault.Station → IsToBlame (T.counts station.old) (T.counts station.new) }
{
    match decide(session, fleet, journal, &mut kit.room, line)? {
        Decision::Say(reply) => Ok(reply),
        Decision::Keep { entry, frame, text } => {
            keep(fleet, journal, station, &entry, &frame)?;
            let count = fleet.count();
            Ok(Reply {
                turn: Turn::Done { count },
                text,
            })
        }
    }
}
