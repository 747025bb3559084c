// What is decided of a report line, before anything is written or sent.
ghost use Rattle.std.specs.Prelude.{◌≡◌, ◌^◌, ◌<◌, ◌≤◌, ◌∷◌, [], ℕ, length, IfOk};
ghost use Rattle.fleet_base.specs.Order.{graph_of};
ghost use Rattle.fleet_base.specs.Rules.{IsFleetState};
ghost use Rattle.fleet_core.specs.declared.judging.Judged.TheVariants.{Accept};
ghost use Rattle.fleet_core.specs.Judgement.{judgement_of};
ghost use Rattle.fleet_core.specs.Step.{Step, IsProposal, IsChoice};
ghost use Rattle.report_text.specs.declared.answer.Answer.TheVariants as answer;
ghost use Rattle.search_nodes.specs.Rooms.{IsRoomFor};
ghost use Rattle.fleet_base.specs.State.{FleetState};
ghost use Rattle.fleet_base.specs.Limits.{report_limit, pair_limit};
ghost use Rattle.journal_frame.specs.Entries.{MaySwitch};
ghost use Rattle.fleet_serve.specs.Serving.{point_of};
ghost use Rattle.fleet_serve.specs.Deciding.{IsDecided, IsEntering, IsFrameOf, Says};

use crate::answer_text::{entry_text, line_text};
use crate::choice::{Chosen, choose};
use crate::outcome::Turn;
use crate::room::has_room;
use crate::session::Session;
use bound_search::Room;
use fleet_base::{Fleet, Memory, PairList, Report, Text, Why};
use fleet_core::{Entry, Judged, PrepareError, judge, prepare};
use fleet_journal::{Journal, framed};
use journal_frame::entry_bytes;
use plan_graph::PlanGraph;
use report_text::{Answer, read_report};
use std::alloc::Global;

/// How a report line is answered, and the text of its answer.
#[derive(Drop)]
pub struct Reply {
    pub turn: Turn,
    pub text: Text,
}

/// What is to be done for a report line.
#[derive(Drop)]
pub enum Decision {
    /// The answer is sent, and nothing changes.
    Say(Reply),
    /// The entry is kept in the journal as this frame and makes its step, and then this text is sent.
    Keep {
        entry: Entry,
        frame: Text,
        text: Text,
    },
}

/// Judges a report line, sees whether the journal has room for its frame, and makes the text of its answer, its entry and the
/// frame.
pub fn decide(
    session: &Session<'_>,
    fleet: &Fleet,
    journal: &Journal,
    room: &mut Room,
    line: &[u8],
) -> Result<Decision, Memory>
    requires graph { session.now.graph.now ≡ graph_of session.now.plan.now }
    requires state { IsFleetState session.now.graph.now fleet.now }
    requires line { length line.now < 2 ^ 32 }
    requires room { IsRoomFor session.now.graph.now room.old }
    ensures decided { IfOk result (IsDecided session.now.plan.now session.now.settings.now (point_of fleet.now journal.now) line.now) }
    ensures room { IsRoomFor session.now.graph.now room.new }
{
    let &Session {
        alloc,
        graph,
        settings,
        ..
    } = session;
    let Ok(report) = read_report(line) else {
        return refuse(alloc, Why::Line);
    };
    match judge(graph, fleet, &report) {
        Judged::Known => say(alloc, Turn::Known, Answer::Known),
        Judged::Refused(why) => refuse(alloc, why),
        Judged::Accept if has_room(graph, fleet, journal, &report, settings.side_limit) => {
            enter(session, fleet, &report, room)
        }
        Judged::Accept => refuse(alloc, Why::Full),
    }
}

/// Makes the text of a refusal.
fn refuse(alloc: Global, why: Why) -> Result<Decision, Memory>
    ensures { IfOk result (Says (Turn.Refused why) (answer.Refused why)) }
{
    say(alloc, Turn::Refused(why), Answer::Refused(why))
}

/// Makes the text of an answer that changes nothing.
fn say(alloc: Global, turn: Turn, answer: Answer) -> Result<Decision, Memory>
    ensures { IfOk result (Says turn answer) }
{
    let text = line_text(alloc, answer)?;
    Ok(Decision::Say(Reply { turn, text }))
}

/// Makes the entry of an accepted report, its frame, and the text of its answer.
fn enter(
    session: &Session<'_>,
    fleet: &Fleet,
    report: &Report,
    room: &mut Room,
) -> Result<Decision, Memory>
    requires graph { session.now.graph.now ≡ graph_of session.now.plan.now }
    requires state { IsFleetState session.now.graph.now fleet.now }
    requires accepted { judgement_of fleet.now report.now ≡ Accept }
    requires count { fleet.now.count < report_limit }
    requires room { IsRoomFor session.now.graph.now room.old }
    ensures entering { (place : ℕ) → IfOk result (IsEntering session.now.plan.now session.now.settings.now (record { state = fleet.now; place = place }) report.now) }
    ensures room { IsRoomFor session.now.graph.now room.new }
{
    let &Session {
        alloc,
        graph,
        plan,
        ..
    } = session;
    // What is released is on the routes of the plan, which are sound.
    let _robots = plan.robots();
    let Chosen { switched, text } = choose(session, fleet, report, room)?;
    let entry = entry_of(alloc, graph, fleet, report, &switched)?;
    let frame = frame_of(alloc, fleet, report, &switched)?;
    let count = fleet.count() + 1;
    let text = entry_text(plan, text, entry.releases.as_slice(), count)?;
    Ok(Decision::Keep { entry, frame, text })
}

/// The entry of an accepted report with the pairs that were chosen for it. These are not refused.
fn entry_of(
    alloc: Global,
    graph: &PlanGraph,
    fleet: &Fleet,
    report: &Report,
    switched: &PairList,
) -> Result<Entry, Memory>
    requires state { IsFleetState graph.now fleet.now }
    requires proposal { IsProposal graph.now fleet.now report.now switched.now }
    requires choice { IsChoice graph.now fleet.now report.now switched.now }
    ensures report { IfOk result (λ e. e.report ≡ report.now) }
    ensures switched { IfOk result (λ e. e.switched ≡ switched.now) }
    ensures step { IfOk result (λ e. (x' : FleetState) × Step graph.now fleet.now e.report e.switched e.releases x') }
{
    match prepare(alloc, graph, fleet, report, switched) {
        Ok(entry) => Ok(entry),
        Err(PrepareError::Memory) => Err(Memory),
        Err(PrepareError::ChoiceRefused { .. }) => unreachable!(),
    }
}

/// The frame of the entry of an accepted report with the pairs that are switched for it.
fn frame_of(
    alloc: Global,
    fleet: &Fleet,
    report: &Report,
    switched: &PairList,
) -> Result<Text, Memory>
    requires accepted { judgement_of fleet.now report.now ≡ Accept }
    requires order { MaySwitch report.now switched.now }
    requires few { length switched.now ≤ pair_limit }
    ensures { IfOk result (IsFrameOf report.now switched.now) }
{
    // The numbers of the robots of a plan and of their visits are small.
    let _robots = fleet.robots();
    let payload = entry_bytes(alloc, report, switched)?;
    framed(alloc, &payload)
}
