// A session over all report lines.
ghost use Rattle.std.specs.Prelude.{◌≡◌, ◌≤◌, ◌∷◌, [], ℕ, List, length, OnOk, IsErrOf};
ghost use Rattle.fleet_base.specs.Order.{graph_of};
ghost use Rattle.fleet_base.specs.Rules.{IsFleetState};
ghost use Rattle.station_api.specs.Causes.{Counted, IsToBlame};
ghost use Rattle.search_nodes.specs.Rooms.{IsRoomFor};
ghost use Rattle.fleet_serve.specs.Told.{told, Takes, IsAtEnd};
ghost use Rattle.fleet_recovery.specs.Opening.{StandsWith, IsAtRest};
ghost use Rattle.fleet_recovery.specs.Papers.{papers_in};
ghost use Rattle.fleet_serve.specs.Serving.{ServeLeaves, course, terms, terms_of, stand};
ghost use Rattle.fleet_serve.specs.Spans.{span};
ghost use Rattle.fleet_serve.specs.Reading.{IsUnfinished, kept_of, Hears};

use crate::kept_line::push_kept;
use crate::kit::Kit;
use crate::outcome::{ServeFault, StepFault};
use crate::report_turn::step;
use crate::session::{Session, Settings};
use fleet_base::{Fleet, SoundPlan, Text, without_return};
use fleet_journal::Journal;
use fleet_recovery::Papers;
use plan_graph::PlanGraph;
use station_api::{Source, Station};
use std::alloc::Global;

/// How many bytes are read at a time at most.
const READ_SIZE: u64 = 512;

/// Answers report lines until the input ends. It reads at most 512 bytes at a time, and only when the answer of every whole
/// line taken has been sent. A rest without a line end is dropped.
///
/// The journal stands at its closed gate, on the side taken, and the sides stand for the fleet.
pub fn serve<S: Source, T: Station>(
    alloc: Global,
    graph: &PlanGraph,
    plan: &SoundPlan,
    fleet: &mut Fleet,
    journal: &mut Journal,
    kit: &mut Kit,
    settings: &Settings,
    papers: &Papers<'_>,
    source: &mut S,
    station: &mut T,
) -> Result<(), ServeFault>
    requires graph { graph.now ≡ graph_of plan.now }
    requires state { IsFleetState graph.now fleet.old }
    requires room { IsRoomFor graph.now kit.old.room }
    requires stands { T.tells → StandsWith plan.now (papers_in papers.now) journal.old fleet.old (T.clock station.old).seen }

    // The turns of the lines are made. At each moment a stop leaves sides that hold the state after some of them, and nothing of
    // an entry's text is sent before the entry is kept.
    ensures served { (taken : List ℕ) × Takes (told S.tells (S.left source.old) (S.left source.new)) taken × ServeLeaves (course (terms plan.now papers.now settings.now) (stand fleet.old journal.old) (stand fleet.new journal.new) (span T.tells (T.clock station.old) (T.clock station.new))) settings.now.input_limit taken (S.last source.new) (told S.tells (S.left source.old) (S.left source.new)) result }
    ensures rules { IsFleetState graph.now fleet.new }
    ensures room { IsRoomFor graph.now kit.new.room }

    // Except after a fault of the station, station and journal are at rest where they were.
    ensures rests { T.tells → (IsErrOf result ServeFault.Station → ⊥) → IsAtRest plan.now (papers_in papers.now) journal.old fleet.old (T.clock station.old) → IsAtRest plan.now (papers_in papers.now) journal.new fleet.new (T.clock station.new) }
    ensures source_counted { Counted (S.counts source.old) (S.counts source.new) }
    ensures source_cause { IsErrOf result ServeFault.Read → IsToBlame (S.counts source.old) (S.counts source.new) }
    ensures station_counted { Counted (T.counts station.old) (T.counts station.new) }
    ensures station_cause { IsErrOf result ServeFault.Station → IsToBlame (T.counts station.old) (T.counts station.new) }
{
    let session = Session {
        alloc,
        graph,
        plan,
        settings,
        papers,
    };
    let mut kept = Text::new(alloc);
    let mut room = [0; READ_SIZE as usize];
    let mut left = settings.input_limit;
    while left > 0 {
        let size = left.min(READ_SIZE) as usize;
        match source.read(&mut room[..size]) {
            Ok(0) => return Ok(()),
            Ok(count) => {
                let bytes = &room[..count];
                hear_all(&session, fleet, journal, kit, &mut kept, bytes, station)?;
                left -= count as u64;
            }
            Err(_) => return Err(ServeFault::Read),
        }
    }
    end_at_limit(source)
}

/// Whether the input ends where no more of it may be taken.
fn end_at_limit<S: Source>(source: &mut S) -> Result<(), ServeFault>
    ensures ok { OnOk result (Takes (told S.tells (S.left source.old) (S.left source.new)) [] × IsAtEnd (told S.tells (S.left source.old) (S.left source.new))) }
    ensures read { IsErrOf result ServeFault.Read → Takes (told S.tells (S.left source.old) (S.left source.new)) [] × IsToBlame (S.counts source.old) (S.counts source.new) }
    ensures limit { IsErrOf result ServeFault.Limit → (byte : ℕ) × Takes (told S.tells (S.left source.old) (S.left source.new)) (byte ∷ []) }
    ensures alone { IsErrOf result ServeFault.Limit → S.last source.new ≡ 1 }
    ensures no_other { (IsErrOf result ServeFault.Station → ⊥) × (IsErrOf result ServeFault.Memory → ⊥) }
    ensures counted { Counted (S.counts source.old) (S.counts source.new) }
{
    let mut room = [0; 1];
    match source.read(&mut room) {
        Ok(0) => Ok(()),
        Ok(_) => Err(ServeFault::Limit),
        Err(_) => Err(ServeFault::Read),
    }
}

/// Reads bytes behind a line that was begun, and answers each line that ends in them.
fn hear_all<T: Station>(
    session: &Session<'_>,
    fleet: &mut Fleet,
    journal: &mut Journal,
    kit: &mut Kit,
    kept: &mut Text,
    bytes: &[u8],
    station: &mut T,
) -> Result<(), StepFault>
    requires graph { session.now.graph.now ≡ graph_of session.now.plan.now }
    requires state { IsFleetState session.now.graph.now fleet.old }
    requires room { IsRoomFor session.now.graph.now kit.old.room }
    requires short { length kept.old ≤ 258 }
    requires stands { T.tells → StandsWith session.now.plan.now (papers_in session.now.papers.now) journal.old fleet.old (T.clock station.old).seen }
    ensures heard { (line : List ℕ) → IsUnfinished line → kept.old ≡ kept_of line → Hears (course (terms_of session.now) (stand fleet.old journal.old) (stand fleet.new journal.new) (span T.tells (T.clock station.old) (T.clock station.new))) line bytes.now kept.new result }
    ensures short { length kept.new ≤ 258 }
    ensures rules { IsFleetState session.now.graph.now fleet.new }
    ensures room { IsRoomFor session.now.graph.now kit.new.room }
    ensures stands { T.tells → (IsErrOf result StepFault.Station → ⊥) → StandsWith session.now.plan.now (papers_in session.now.papers.now) journal.new fleet.new (T.clock station.new).seen }
    ensures rests { T.tells → (IsErrOf result StepFault.Station → ⊥) → IsAtRest session.now.plan.now (papers_in session.now.papers.now) journal.old fleet.old (T.clock station.old) → IsAtRest session.now.plan.now (papers_in session.now.papers.now) journal.new fleet.new (T.clock station.new) }
    ensures counted { Counted (T.counts station.old) (T.counts station.new) }
    ensures cause { IsErrOf result StepFault.Station → IsToBlame (T.counts station.old) (T.counts station.new) }
{
    for byte in bytes {
        hear_byte(session, fleet, journal, kit, kept, *byte, station)?;
    }
    Ok(())
}

/// Reads one byte behind a line that was begun, and answers the line if it ends there.
fn hear_byte<T: Station>(
    session: &Session<'_>,
    fleet: &mut Fleet,
    journal: &mut Journal,
    kit: &mut Kit,
    kept: &mut Text,
    byte: u8,
    station: &mut T,
) -> Result<(), StepFault>
    requires graph { session.now.graph.now ≡ graph_of session.now.plan.now }
    requires state { IsFleetState session.now.graph.now fleet.old }
    requires room { IsRoomFor session.now.graph.now kit.old.room }
    requires short { length kept.old ≤ 258 }
    requires stands { T.tells → StandsWith session.now.plan.now (papers_in session.now.papers.now) journal.old fleet.old (T.clock station.old).seen }
    ensures heard { (line : List ℕ) → IsUnfinished line → kept.old ≡ kept_of line → Hears (course (terms_of session.now) (stand fleet.old journal.old) (stand fleet.new journal.new) (span T.tells (T.clock station.old) (T.clock station.new))) line (byte ∷ []) kept.new result }
    ensures short { length kept.new ≤ 258 }
    ensures rules { IsFleetState session.now.graph.now fleet.new }
    ensures room { IsRoomFor session.now.graph.now kit.new.room }
    ensures stands { T.tells → (IsErrOf result StepFault.Station → ⊥) → StandsWith session.now.plan.now (papers_in session.now.papers.now) journal.new fleet.new (T.clock station.new).seen }
    ensures rests { T.tells → (IsErrOf result StepFault.Station → ⊥) → IsAtRest session.now.plan.now (papers_in session.now.papers.now) journal.old fleet.old (T.clock station.old) → IsAtRest session.now.plan.now (papers_in session.now.papers.now) journal.new fleet.new (T.clock station.new) }
    ensures counted { Counted (T.counts station.old) (T.counts station.new) }
    ensures cause { IsErrOf result StepFault.Station → IsToBlame (T.counts station.old) (T.counts station.new) }
{
    if byte != b'\n' {
        push_kept(kept, byte)?;
        return Ok(());
    }
    let &Session {
        alloc,
        graph,
        plan,
        settings,
        papers,
    } = session;
    let line = without_return(kept.as_slice());
    step(
        alloc, graph, plan, fleet, journal, kit, settings, papers, line, station,
    )?;
    *kept = Text::new(alloc);
    Ok(())
}
