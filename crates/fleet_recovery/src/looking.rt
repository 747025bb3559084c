// What the sides of a journal stand for.
ghost use Rattle.std.specs.Prelude.{◌≡◌, [], IfOk, IfErr, IsErrOf};
ghost use Rattle.fleet_base.specs.Pairs.{pairs_of};
ghost use Rattle.fleet_base.specs.Order.{graph_of};
ghost use Rattle.fleet_base.specs.Rules.{IsFleetState};
ghost use Rattle.station_api.specs.Disk.{IsQuiet};
ghost use Rattle.station_api.specs.Causes.{Counted, IsToBlame};
ghost use Rattle.fleet_recovery.specs.Image.{IsImage};
ghost use Rattle.fleet_recovery.specs.Answers.{IsLooked, LookRefuses};
ghost use Rattle.fleet_recovery.specs.Replaying.{ReplayRefuses, IsReadAll, GetsStuck};
ghost use Rattle.journal_frame.specs.declared.header.HeaderParts.{HeaderParts as Parts};
ghost use Rattle.fleet_journal.specs.Journal.{HasRead};

use crate::RecoverError;
use crate::papers::{Papers, other_papers};
use crate::replay::replay;
use fleet_base::{Fleet, PairTable, SoundPlan};
use fleet_core::first_state_on;
use fleet_journal::{Finding, Journal, JournalError, OtherSide};
use plan_graph::PlanGraph;
use station_api::Station;
use std::alloc::Global;

/// The fleet state for which the sides of a journal stand, the count of reports with which its header begins, and the
/// journal, at its closed gate, with what is to be done with the other side; no journal where both sides are blank.
#[derive(Debug, Drop)]
pub struct Looked {
    pub fleet: Fleet,
    pub base: u64,
    pub live: Option<(Journal, OtherSide)>,
}

/// Reads the fleet state for which the two sides stand, for a plan with its pairs, and the bytes of its map and of
/// itself. Nothing is written. The journal is read frame by frame: memory is taken for the state and one frame.
pub fn look<T: Station>(
    alloc: Global,
    station: &mut T,
    plan: &SoundPlan,
    pairs: &PairTable,
    map: &[u8],
    text: &[u8],
) -> Result<Looked, RecoverError>
    requires { pairs.now ≡ pairs_of plan.now }
    ensures rules { IfOk result (λ looked. IsFleetState (graph_of plan.now) looked.fleet) }

    // The state is that for which the sides stand, and the journal is that of the side taken.
    ensures found { T.tells → IfOk result (λ looked. IsLooked plan.now (record { map = map.now; plan = text.now }) (T.clock station.old).seen looked.fleet looked.base looked.live) }

    // A refusal comes only where the sides mean it.
    ensures refused { IfErr result (LookRefuses (λ image. T.tells → IsImage plan.now (record { map = map.now; plan = text.now }) (T.clock station.old).seen image)) }
    ensures quiet { T.tells → IsQuiet (T.clock station.old) (T.clock station.new) }
    ensures counted { Counted (T.counts station.old) (T.counts station.new) }
    ensures cause { IsErrOf result (RecoverError.Journal JournalError.Station) → IsToBlame (T.counts station.old) (T.counts station.new) }
{
    let graph = PlanGraph::new(alloc, plan, pairs)?;
    look_on(alloc, station, &graph, plan, pairs, map, text)
}

/// The same over the graph of the plan, where it is made already.
pub fn look_on<T: Station>(
    alloc: Global,
    station: &mut T,
    graph: &PlanGraph,
    plan: &SoundPlan,
    pairs: &PairTable,
    map: &[u8],
    text: &[u8],
) -> Result<Looked, RecoverError>
    requires pairs { pairs.now ≡ pairs_of plan.now }
    requires graph { graph.now ≡ graph_of plan.now }
    ensures rules { IfOk result (λ looked. IsFleetState (graph_of plan.now) looked.fleet) }

    // The state is that for which the sides stand, and the journal is that of the side taken.
    ensures found { T.tells → IfOk result (λ looked. IsLooked plan.now (record { map = map.now; plan = text.now }) (T.clock station.old).seen looked.fleet looked.base looked.live) }

    // A refusal comes only where the sides mean it.
    ensures refused { IfErr result (LookRefuses (λ image. T.tells → IsImage plan.now (record { map = map.now; plan = text.now }) (T.clock station.old).seen image)) }
    ensures quiet { T.tells → IsQuiet (T.clock station.old) (T.clock station.new) }
    ensures counted { Counted (T.counts station.old) (T.counts station.new) }
    ensures cause { IsErrOf result (RecoverError.Journal JournalError.Station) → IsToBlame (T.counts station.old) (T.counts station.new) }
{
    let fleet = first_state_on(alloc, graph, plan, pairs, 1)?;
    match Journal::find(alloc, station)? {
        Finding::Blank => Ok(Looked {
            base: fleet.count(),
            fleet,
            live: None,
        }),
        Finding::Live {
            journal,
            header,
            other,
        } => {
            if let Some(at) = other_papers(&header, &Papers { map, plan: text }) {
                return Err(RecoverError::OtherPlan { at });
            }
            read_all(alloc, station, graph, fleet, journal, other)
        }
    }
}

/// The state after the entries of a journal that stands behind its header, and the journal at its closed gate.
fn read_all<T: Station>(
    alloc: Global,
    station: &mut T,
    graph: &PlanGraph,
    fleet: Fleet,
    journal: Journal,
    other: OtherSide,
) -> Result<Looked, RecoverError>
    requires { IsFleetState graph.now fleet }
    ensures rules { IfOk result (λ looked. IsFleetState graph.now looked.fleet) }
    ensures base { IfOk result (λ looked. looked.base ≡ fleet.count) }
    ensures leads { T.tells → (header : Parts) → HasRead journal header [] (T.clock station.old).seen →
        IfOk result (λ looked. IsReadAll graph.now fleet looked.fleet journal other header (T.clock station.old).seen looked.live) }
    ensures refused { IfErr result (ReplayRefuses (λ n. T.tells → (header : Parts) → HasRead journal header [] (T.clock station.old).seen →
        GetsStuck graph.now fleet journal header (T.clock station.old).seen n)) }
    ensures quiet { T.tells → IsQuiet (T.clock station.old) (T.clock station.new) }
    ensures counted { Counted (T.counts station.old) (T.counts station.new) }
    ensures cause { IsErrOf result (RecoverError.Journal JournalError.Station) → IsToBlame (T.counts station.old) (T.counts station.new) }
{
    let base = fleet.count();
    let mut fleet = fleet;
    let mut journal = journal;
    replay(alloc, station, graph, &mut fleet, &mut journal)?;
    Ok(Looked {
        fleet,
        base,
        live: Some((journal, other)),
    })
}
