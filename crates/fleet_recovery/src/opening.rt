// The opening of a journal.
ghost use Rattle.std.specs.Prelude.{ℕ, List, ◌≡◌, ◌⊎◌, ◌+◌, ◌<◌, ◌≤◌, ◌^◌, [], length, IfOk, OnOk, IfErr, IsErrOf};
ghost use Rattle.fleet_base.specs.Pairs.{pairs_of};
ghost use Rattle.fleet_base.specs.Order.{graph_of};
ghost use Rattle.fleet_base.specs.Rules.{IsFleetState};
ghost use Rattle.station_api.specs.Scene.{side_of, other_of};
ghost use Rattle.station_api.specs.Clock.{LeavesOnly, LeavesNow, IsKept};
ghost use Rattle.station_api.specs.Disk.{IsQuiet};
ghost use Rattle.station_api.specs.Causes.{Counted, HasCause, IsToBlame};
ghost use Rattle.journal_frame.specs.declared.header.HeaderParts.{HeaderParts as Parts};
ghost use Rattle.fleet_journal.specs.Sides.{IsBlankJournal, IsClean, BlankOrCreated, Keeps};
ghost use Rattle.fleet_journal.specs.Journal.{IsHeaderText, Stands};
ghost use Rattle.fleet_recovery.specs.Papers.{new_header};
ghost use Rattle.fleet_journal.specs.declared.error.JournalError.TheVariants.{Station as StationFault};
ghost use Rattle.fleet_recovery.specs.declared.error.RecoverError.TheVariants.{Journal as OfJournal};
ghost use Rattle.fleet_recovery.specs.Image.{IsImage};
ghost use Rattle.fleet_recovery.specs.Answers.{MakeRefuses, RecoverRefuses, UnlessStation};
ghost use Rattle.fleet_recovery.specs.Opening.{IsOpening, SyncsFirst, StandsStill, Opens, IsAtRest};

use crate::{Looked, RecoverError, look_on};
use fleet_base::{Fleet, Memory, PairTable, SoundPlan, Text};
use fleet_journal::{Journal, JournalError, OtherSide, framed};
use journal_frame::{Header, header_bytes};
use plan_graph::PlanGraph;
use station_api::{DiskSide, Station, sync_both};
use std::alloc::Global;

/// Opens the journal of a plan with its pairs, and the bytes of its map and of itself, or makes one where both sides are
/// blank, so that a session can begin. Both sides are synced first; then the fleet state is read for which they stand,
/// and only when it is known is anything written.
///
/// A side may have as many bytes as the limit says. The header's frame has a length of four bytes.
pub fn recover<T: Station>(
    alloc: Global,
    station: &mut T,
    plan: &SoundPlan,
    pairs: &PairTable,
    map: &[u8],
    text: &[u8],
    side_limit: u64,
) -> Result<(Fleet, Journal), RecoverError>
    requires pairs { pairs.now ≡ pairs_of plan.now }
    requires few { length map.now + length text.now + 27 < 2 ^ 32 }
    ensures rules { IfOk result (λ opened. IsFleetState (graph_of plan.now) opened.0) }

    // At each moment of the call a stop leaves what one before it might have left, or what stands for the same state.
    ensures any_moment { T.tells → LeavesOnly (IsOpening plan.now (record { map = map.now; plan = text.now }) (T.clock station.old)) (T.clock station.old) (T.clock station.new) }

    // In the end, whatever the answer, nothing has happened, or all that a stop may leave now stands for that state.
    ensures afterwards { T.tells → IsQuiet (T.clock station.old) (T.clock station.new) ⊎ LeavesNow (StandsStill plan.now (record { map = map.now; plan = text.now }) (T.clock station.old).seen) (T.clock station.new) }

    // Whatever the answer, from the moment at which both sides are synced a stop leaves what was read, or what stands for the
    // same state. Only a fault of the station comes before that moment.
    ensures synced { T.tells → SyncsFirst plan.now (record { map = map.now; plan = text.now }) (T.clock station.old) (T.clock station.new) ⊎ (IsErrOf result (RecoverError.Journal JournalError.Station) × IsQuiet (T.clock station.old) (T.clock station.new)) }

    // At Ok the state is that for which the sides stood, and station and journal are at rest with it. The side taken ends
    // at its closed gate.
    ensures restores { T.tells → IfOk result (λ opened. Opens plan.now (record { map = map.now; plan = text.now }) (T.clock station.old).seen opened.0 opened.1.place) }
    ensures rests { T.tells → IfOk result (λ opened. IsAtRest plan.now (record { map = map.now; plan = text.now }) opened.1 opened.0 (T.clock station.new)) }
    ensures ends { T.tells → IfOk result (λ opened. length (side_of opened.1.side (T.clock station.new).seen) ≡ opened.1.place + 1) }
    ensures unsent { T.tells → (T.clock station.new).seen.sent ≡ (T.clock station.old).seen.sent }

    // A new journal is made only where the header ends within the limit.
    ensures within { T.tells → IsBlankJournal (T.clock station.old).seen → IfOk result (λ _. length map.now + length text.now + 28 ≤ side_limit) }

    // A refusal comes only where the sides mean it, and after it both sides are as they were.
    ensures refused { IfErr result (RecoverRefuses (λ image. T.tells → IsImage plan.now (record { map = map.now; plan = text.now }) (T.clock station.old).seen image) (length map.now + length text.now + 28) side_limit) }
    ensures stays { T.tells → IfErr result (UnlessStation (IsQuiet (T.clock station.old) (T.clock station.new))) }
    ensures counted { Counted (T.counts station.old) (T.counts station.new) }
    ensures cause { IsErrOf result (RecoverError.Journal JournalError.Station) → IsToBlame (T.counts station.old) (T.counts station.new) }
{
    match PlanGraph::new(alloc, plan, pairs) {
        Ok(graph) => recover_on(alloc, station, &graph, plan, pairs, map, text, side_limit),
        // Both sides are synced before every answer but a fault of the station.
        Err(memory) => match sync_both(station) {
            Ok(()) => Err(memory.into()),
            Err(failed) => Err(failed.into()),
        },
    }
}

/// The same over the graph of the plan, where it is made already.
pub fn recover_on<T: Station>(
    alloc: Global,
    station: &mut T,
    graph: &PlanGraph,
    plan: &SoundPlan,
    pairs: &PairTable,
    map: &[u8],
    text: &[u8],
    side_limit: u64,
) -> Result<(Fleet, Journal), RecoverError>
    requires pairs { pairs.now ≡ pairs_of plan.now }
    requires graph { graph.now ≡ graph_of plan.now }
    requires few { length map.now + length text.now + 27 < 2 ^ 32 }
    ensures rules { IfOk result (λ opened. IsFleetState (graph_of plan.now) opened.0) }

    // At each moment of the call a stop leaves what one before it might have left, or what stands for the same state.
    ensures any_moment { T.tells → LeavesOnly (IsOpening plan.now (record { map = map.now; plan = text.now }) (T.clock station.old)) (T.clock station.old) (T.clock station.new) }

    // In the end, whatever the answer, nothing has happened, or all that a stop may leave now stands for that state.
    ensures afterwards { T.tells → IsQuiet (T.clock station.old) (T.clock station.new) ⊎ LeavesNow (StandsStill plan.now (record { map = map.now; plan = text.now }) (T.clock station.old).seen) (T.clock station.new) }

    // Whatever the answer, from the moment at which both sides are synced a stop leaves what was read, or what stands for the
    // same state. Only a fault of the station comes before that moment.
    ensures synced { T.tells → SyncsFirst plan.now (record { map = map.now; plan = text.now }) (T.clock station.old) (T.clock station.new) ⊎ (IsErrOf result (RecoverError.Journal JournalError.Station) × IsQuiet (T.clock station.old) (T.clock station.new)) }

    // At Ok the state is that for which the sides stood, and station and journal are at rest with it. The side taken ends
    // at its closed gate.
    ensures restores { T.tells → IfOk result (λ opened. Opens plan.now (record { map = map.now; plan = text.now }) (T.clock station.old).seen opened.0 opened.1.place) }
    ensures rests { T.tells → IfOk result (λ opened. IsAtRest plan.now (record { map = map.now; plan = text.now }) opened.1 opened.0 (T.clock station.new)) }
    ensures ends { T.tells → IfOk result (λ opened. length (side_of opened.1.side (T.clock station.new).seen) ≡ opened.1.place + 1) }
    ensures unsent { T.tells → (T.clock station.new).seen.sent ≡ (T.clock station.old).seen.sent }

    // A new journal is made only where the header ends within the limit.
    ensures within { T.tells → IsBlankJournal (T.clock station.old).seen → IfOk result (λ _. length map.now + length text.now + 28 ≤ side_limit) }

    // A refusal comes only where the sides mean it, and after it both sides are as they were.
    ensures refused { IfErr result (RecoverRefuses (λ image. T.tells → IsImage plan.now (record { map = map.now; plan = text.now }) (T.clock station.old).seen image) (length map.now + length text.now + 28) side_limit) }
    ensures stays { T.tells → IfErr result (UnlessStation (IsQuiet (T.clock station.old) (T.clock station.new))) }
    ensures counted { Counted (T.counts station.old) (T.counts station.new) }
    ensures cause { IsErrOf result (RecoverError.Journal JournalError.Station) → IsToBlame (T.counts station.old) (T.counts station.new) }
{
    sync_both(station)?;
    let Looked { fleet, live, .. } = look_on(alloc, station, graph, plan, pairs, map, text)?;
    let journal = match live {
        None => make(alloc, station, map, text, side_limit)?,
        Some((journal, other)) => finish(station, journal, other)?,
    };
    Ok((fleet, journal))
}

/// What is written for the header of a new journal.
fn header_text<'p>(alloc: Global, map: &'p [u8], text: &'p [u8]) -> Result<Text, Memory>
    requires { length map.now + length text.now + 27 < 2 ^ 32 }
    ensures header { IfOk result (λ bytes. IsHeaderText bytes (new_header map.now text.now)) }
    ensures length { IfOk result (λ bytes. length bytes ≡ length map.now + length text.now + 27) }
{
    let header = Header {
        generation: 1,
        map,
        plan: text,
        summary: None,
    };
    let payload = header_bytes(alloc, &header)?;
    framed(alloc, &payload)
}

/// Makes a journal on blank sides.
fn make<T: Station>(
    alloc: Global,
    station: &mut T,
    map: &[u8],
    text: &[u8],
    side_limit: u64,
) -> Result<Journal, RecoverError>
    requires few { length map.now + length text.now + 27 < 2 ^ 32 }
    requires blank { T.tells → IsBlankJournal (T.clock station.old).seen }
    ensures creates { T.tells → IfOk result (λ journal. Stands journal (new_header map.now text.now) [] (T.clock station.new).seen) }
    ensures side { IfOk result (λ journal. journal.side ≡ DiskSide.A) }
    ensures place { IfOk result (λ journal. journal.place ≡ length map.now + length text.now + 27) }
    ensures kept { T.tells → OnOk result (IsKept (T.clock station.old) → IsKept (T.clock station.new)) }
    ensures any_moment { T.tells → IsKept (T.clock station.old) → LeavesOnly (BlankOrCreated (new_header map.now text.now)) (T.clock station.old) (T.clock station.new) }
    ensures unsent { T.tells → (T.clock station.new).seen.sent ≡ (T.clock station.old).seen.sent }
    ensures beside { T.tells → OnOk result (length (T.clock station.new).seen.b ≤ 1) }
    ensures ends { T.tells → IfOk result (λ journal. length (side_of journal.side (T.clock station.new).seen) ≡ journal.place + 1) }
    ensures within { OnOk result (length map.now + length text.now + 28 ≤ side_limit) }
    ensures refused { IfErr result (MakeRefuses (length map.now + length text.now + 28) side_limit) }
    ensures stays { T.tells → IfErr result (UnlessStation (IsQuiet (T.clock station.old) (T.clock station.new))) }
    ensures counted { Counted (T.counts station.old) (T.counts station.new) }
    ensures cause { IsErrOf result (RecoverError.Journal JournalError.Station) → IsToBlame (T.counts station.old) (T.counts station.new) }
{
    let header = header_text(alloc, map, text)?;
    Ok(Journal::create(station, &header, side_limit)?)
}

/// Finishes a journal that was found, and stands at its closed gate.
fn finish<T: Station>(
    station: &mut T,
    journal: Journal,
    other: OtherSide,
) -> Result<Journal, RecoverError>
    requires stands { T.tells → (header : Parts) × (entries : List (List ℕ)) × Stands journal header entries (T.clock station.old).seen }
    requires other { T.tells → other ≡ OtherSide.Clean → IsClean (side_of (other_of journal.side) (T.clock station.old).seen) }
    ensures same { IfOk result (λ new. new ≡ journal) }
    ensures keeps { T.tells → OnOk result ((header : Parts) (entries : List (List ℕ)) →
        Stands journal header entries (T.clock station.old).seen → Stands journal header entries (T.clock station.new).seen) }
    ensures kept { T.tells → OnOk result (IsKept (T.clock station.old) → IsKept (T.clock station.new)) }
    ensures any_moment { T.tells → (header : Parts) (entries : List (List ℕ)) → Stands journal header entries (T.clock station.old).seen → IsKept (T.clock station.old) →
        LeavesOnly (Keeps journal.side header entries) (T.clock station.old) (T.clock station.new) }
    ensures unsent { T.tells → (T.clock station.new).seen.sent ≡ (T.clock station.old).seen.sent }
    ensures beside { T.tells → OnOk result (IsClean (side_of (other_of journal.side) (T.clock station.new).seen)) }
    ensures ends { T.tells → OnOk result (length (side_of journal.side (T.clock station.new).seen) ≡ journal.place + 1) }
    ensures only { IfErr result (λ e. e ≡ OfJournal StationFault) }
    ensures cause { HasCause (T.counts station.old) (T.counts station.new) result }
{
    let mut journal = journal;
    journal.finish(station, other)?;
    Ok(journal)
}
