// A run of a plan: its journal, its session, and the line that ends it.
ghost use Rattle.std.specs.Prelude.{◌≡◌, ◌⊎◌, ◌≤◌, ◌^◌, ◌+◌, ℕ, length, false, IfOk, IfErr, IsErrOf};
ghost use Rattle.fleet_base.specs.Order.{graph_of};
ghost use Rattle.fleet_base.specs.Pairs.{pairs_of};
ghost use Rattle.fleet_base.specs.Plan.{AreRoutes};
ghost use Rattle.fleet_base.specs.Rules.{IsFleetState};
ghost use Rattle.fleet_base.specs.Limits.{paper_limit, side_limit};
ghost use Rattle.station_api.specs.Clock.{LeavesOnly, LeavesNow};
ghost use Rattle.station_api.specs.Causes.{Counted, IsToBlame};
ghost use Rattle.station_api.specs.Disk.{IsQuiet};
ghost use Rattle.fleet_recovery.specs.Image.{IsImage};
ghost use Rattle.fleet_recovery.specs.Answers.{RecoverRefuses, UnlessStation};
ghost use Rattle.fleet_recovery.specs.Opening.{IsOpening, StandsStill, Opens, IsAtRest};
ghost use Rattle.search_nodes.specs.Rooms.{IsRoomFor};
ghost use Rattle.fleet_serve.specs.Told.{told};
ghost use Rattle.fleet_serve.specs.Spans.{span};
ghost use Rattle.fleet_cli.specs.Papers.{bytes_of};
ghost use Rattle.fleet_cli.specs.Runs.{HasFailed, talk, OpenEnds, RunEnds, run_settings};

use crate::papers::CheckedPapers;
use crate::refusing::refuse;
use crate::saying::say;
use fleet_base::{Fleet, Status, limits};
use fleet_journal::{Journal, JournalError};
use fleet_recovery::{RecoverError, recover_on};
use fleet_serve::{Kit, Papers, ServeFault, Settings, StepFault, greet, serve};
use plan_graph::PlanGraph;
use station_api::{AttachFault, Source, Station};
use std::alloc::Global;

/// What a run keeps while it serves.
#[derive(Drop)]
struct Opened {
    graph: PlanGraph,
    fleet: Fleet,
    journal: Journal,
    kit: Kit,
}

/// Runs a plan with the journal of this name: opens the journal, or makes it, greets, and answers report lines until the
/// input ends.
pub fn run<S: Source, T: Station>(
    alloc: Global,
    papers: &CheckedPapers,
    journal: &str,
    budget: u64,
    quiet: bool,
    source: &mut S,
    station: &mut T,
) -> Status
    requires sound { AreRoutes papers.now.plan }
    requires pairs { papers.now.pairs ≡ pairs_of papers.now.plan }
    requires small_map { length papers.now.map.items ≤ paper_limit }
    requires small_plan { length papers.now.text.items ≤ paper_limit }
    ensures ends { RunEnds papers.now.plan (bytes_of papers.now) (run_settings budget quiet) (talk (told S.tells (S.left source.old) (S.left source.new)) (S.last source.new) (HasFailed (S.counts source.old) (S.counts source.new))
        (span T.tells (T.clock station.old) (T.clock station.new)) (HasFailed (T.counts station.old) (T.counts station.new))) result }
    ensures source { Counted (S.counts source.old) (S.counts source.new) }
    ensures station { Counted (T.counts station.old) (T.counts station.new) }
{
    let Opened {
        graph,
        mut fleet,
        mut journal,
        mut kit,
    } = match open(alloc, papers, journal, station) {
        Ok(opened) => opened,
        Err(status) => return status,
    };
    let plan = &papers.plan;
    match greet(alloc, &graph, plan, &fleet, &mut kit, station) {
        Ok(()) => {}
        Err(StepFault::Station) => return Status::StationFault,
        Err(StepFault::Memory) => return Status::Memory,
    }
    let texts = Papers {
        map: &papers.map,
        plan: &papers.text,
    };
    let settings = Settings {
        budget,
        quiet,
        side_limit: limits::SIDE,
        input_limit: limits::INPUT,
    };
    match serve(
        alloc,
        &graph,
        plan,
        &mut fleet,
        &mut journal,
        &mut kit,
        &settings,
        &texts,
        source,
        station,
    ) {
        Ok(()) => Status::Done,
        Err(ServeFault::Read) => say(station, b"fault read reports\n", Status::ReadFault),
        Err(ServeFault::Limit) => say(station, b"fault limit\n", Status::Limit),
        Err(ServeFault::Station) => Status::StationFault,
        Err(ServeFault::Memory) => Status::Memory,
    }
}

/// Attaches the journal of this name and opens it; where it is not opened, sends the line that says why.
fn open<T: Station>(
    alloc: Global,
    papers: &CheckedPapers,
    journal: &str,
    station: &mut T,
) -> Result<Opened, Status>
    requires sound { AreRoutes papers.now.plan }
    requires pairs { papers.now.pairs ≡ pairs_of papers.now.plan }
    requires small_map { length papers.now.map.items ≤ paper_limit }
    requires small_plan { length papers.now.text.items ≤ paper_limit }
    ensures graph { IfOk result (λ opened. opened.graph ≡ graph_of papers.now.plan) }
    ensures rules { IfOk result (λ opened. IsFleetState (graph_of papers.now.plan) opened.fleet) }
    ensures room { IfOk result (λ opened. IsRoomFor (graph_of papers.now.plan) opened.kit.room) }
    ensures restores { T.tells → IfOk result (λ opened. Opens papers.now.plan (bytes_of papers.now) (T.clock station.old).seen opened.fleet opened.journal.place) }
    ensures rests { T.tells → IfOk result (λ opened. IsAtRest papers.now.plan (bytes_of papers.now) opened.journal opened.fleet (T.clock station.new)) }
    ensures opening { T.tells → IfOk result (λ _. LeavesOnly (IsOpening papers.now.plan (bytes_of papers.now) (T.clock station.old)) (T.clock station.old) (T.clock station.new)) }
    ensures unsent { T.tells → IfOk result (λ _. (T.clock station.new).seen.sent ≡ (T.clock station.old).seen.sent) }
    ensures refused { IfErr result (OpenEnds papers.now.plan (bytes_of papers.now) (span T.tells (T.clock station.old) (T.clock station.new)) (HasFailed (T.counts station.old) (T.counts station.new))) }
    ensures counted { Counted (T.counts station.old) (T.counts station.new) }
{
    match station.attach(alloc, journal) {
        Ok(()) => {}
        Err(AttachFault::Failed) => return Err(Status::StationFault),
        Err(AttachFault::Memory) => return Err(Status::Memory),
    }
    match restore(alloc, papers, station) {
        Ok(opened) => Ok(opened),
        Err(error) => Err(refuse(alloc, station, &error)),
    }
}

/// Restores the state for which the sides of a journal stand, or makes a journal, with what a session needs.
fn restore<T: Station>(
    alloc: Global,
    papers: &CheckedPapers,
    station: &mut T,
) -> Result<Opened, RecoverError>
    requires pairs { papers.now.pairs ≡ pairs_of papers.now.plan }
    requires small_map { length papers.now.map.items ≤ paper_limit }
    requires small_plan { length papers.now.text.items ≤ paper_limit }
    ensures graph { IfOk result (λ opened. opened.graph ≡ graph_of papers.now.plan) }
    ensures rules { IfOk result (λ opened. IsFleetState (graph_of papers.now.plan) opened.fleet) }
    ensures room { IfOk result (λ opened. IsRoomFor (graph_of papers.now.plan) opened.kit.room) }
    ensures any_moment { T.tells → LeavesOnly (IsOpening papers.now.plan (bytes_of papers.now) (T.clock station.old)) (T.clock station.old) (T.clock station.new) }
    ensures restores { T.tells → IfOk result (λ opened. Opens papers.now.plan (bytes_of papers.now) (T.clock station.old).seen opened.fleet opened.journal.place) }
    ensures rests { T.tells → IfOk result (λ opened. IsAtRest papers.now.plan (bytes_of papers.now) opened.journal opened.fleet (T.clock station.new)) }
    ensures unsent { T.tells → (T.clock station.new).seen.sent ≡ (T.clock station.old).seen.sent }
    ensures refused { IfErr result (RecoverRefuses (λ image. T.tells → IsImage papers.now.plan (bytes_of papers.now) (T.clock station.old).seen image) (length papers.now.map.items + length papers.now.text.items + 28) side_limit) }
    ensures stays { T.tells → IfErr result (UnlessStation (IsQuiet (T.clock station.old) (T.clock station.new))) }
    ensures afterwards { T.tells → IsQuiet (T.clock station.old) (T.clock station.new) ⊎ LeavesNow (StandsStill papers.now.plan (bytes_of papers.now) (T.clock station.old).seen) (T.clock station.new) }
    ensures counted { Counted (T.counts station.old) (T.counts station.new) }
    ensures cause { IsErrOf result (RecoverError.Journal JournalError.Station) → IsToBlame (T.counts station.old) (T.counts station.new) }
{
    let graph = PlanGraph::new(alloc, &papers.plan, &papers.pairs)?;
    let kit = Kit::new(alloc, &graph)?;
    let (fleet, journal) = recover_on(
        alloc,
        station,
        &graph,
        &papers.plan,
        &papers.pairs,
        &papers.map,
        &papers.text,
        limits::SIDE,
    )?;
    Ok(Opened {
        graph,
        fleet,
        journal,
        kit,
    })
}
