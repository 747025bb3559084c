// Turns of robots that may hold several releases that they have not reported.
ghost use Rattle.std.specs.Prelude.{ℕ, ◌≡◌, ◌+◌, ◌<◌, ◌^◌, length, IfOk, OnOk};
ghost use Rattle.fleet_base.specs.Pairs.{pairs_of};
ghost use Rattle.fleet_base.specs.Order.{graph_of};
ghost use Rattle.fleet_base.specs.State.{IsWindow};
ghost use Rattle.fleet_base.specs.Rules.{IsFleetState};
ghost use Rattle.station_api.specs.Clock.{IsKept};
ghost use Rattle.station_api.specs.StationState.{station_clock};
ghost use Rattle.fleet_journal.specs.Sides.{IsBlankJournal};
ghost use Rattle.fleet_journal.specs.Journal.{IsHeaderText};
ghost use Rattle.search_nodes.specs.Rooms.{IsRoomFor};
ghost use Rattle.fleet_recovery.specs.Papers.{new_header, papers_in};
ghost use Rattle.fleet_recovery.specs.Opening.{IsAtRest, StandsWith};

use crate::serving::{LIMIT, TEXTS, crossing, settings};
use fleet_base::{Fleet, PairTable, SoundPlan, Text};
use fleet_core::first_state_ahead;
use fleet_journal::{Journal, framed};
use fleet_serve::{Kit, Papers, greet, step};
use journal_frame::{Header, header_bytes};
use plan_graph::PlanGraph;
use station_api::{MemStation, Station};
use std::alloc::Global;
use std::test::Fail;
use trial_base::station_of;

/// What is written for the header of a new journal.
fn header_text(alloc: Global, papers: &Papers<'_>) -> Result<Text, Fail>
    requires { length papers.now.map.now + length papers.now.plan.now + 27 < 2 ^ 32 }
    ensures header { IfOk result (λ bytes. IsHeaderText bytes (new_header papers.now.map.now papers.now.plan.now)) }
    ensures length { IfOk result (λ bytes. length bytes ≡ length papers.now.map.now + length papers.now.plan.now + 27) }
{
    let header = Header {
        generation: 1,
        map: papers.map,
        plan: papers.plan,
        summary: None,
    };
    let payload = header_bytes(alloc, &header)?;
    Ok(framed(alloc, &payload)?)
}

/// A new journal, and the state in which robots begin that may hold so many releases.
fn begun<T: Station>(
    alloc: Global,
    plan: &SoundPlan,
    table: &PairTable,
    papers: &Papers<'_>,
    window: u32,
    station: &mut T,
) -> Result<(Fleet, Journal), Fail>
    requires pairs { table.now ≡ pairs_of plan.now }
    requires window { IsWindow window }
    requires few { length papers.now.map.now + length papers.now.plan.now + 27 < 2 ^ 32 }
    requires blank { T.tells → IsBlankJournal (T.clock station.old).seen }
    requires kept { T.tells → IsKept (T.clock station.old) }
    ensures rules { IfOk result (λ made. IsFleetState (graph_of plan.now) made.0) }
    ensures rests { T.tells → IfOk result (λ made. IsAtRest plan.now (papers_in papers.now) made.1 made.0 (T.clock station.new)) }
{
    let fleet = first_state_ahead(alloc, plan, table, window)?;
    let header = header_text(alloc, papers)?;
    match Journal::create(station, &header, LIMIT) {
        Ok(journal) => Ok((fleet, journal)),
        Err(_) => Err(Fail::from("a journal")),
    }
}

/// Greets, and makes the turns of these lines.
fn talk<T: Station>(
    alloc: Global,
    plan: &SoundPlan,
    table: &PairTable,
    papers: &Papers<'_>,
    window: u32,
    lines: &[&[u8]],
    station: &mut T,
) -> Result<(), Fail>
    requires pairs { table.now ≡ pairs_of plan.now }
    requires window { IsWindow window }
    requires few { length papers.now.map.now + length papers.now.plan.now + 27 < 2 ^ 32 }
    requires blank { T.tells → IsBlankJournal (T.clock station.old).seen }
    requires kept { T.tells → IsKept (T.clock station.old) }
{
    let graph = PlanGraph::new(alloc, plan, table)?;
    let mut kit = Kit::new(alloc, &graph)?;
    let (fleet, journal) = begun(alloc, plan, table, papers, window, station)?;
    if greet(alloc, &graph, plan, &fleet, &mut kit, station).is_err() {
        return Err(Fail::from("a greeting"));
    }
    answer(
        alloc, &graph, plan, fleet, journal, &mut kit, papers, lines, station,
    )
}

/// Makes the turns of these lines.
fn answer<T: Station>(
    alloc: Global,
    graph: &PlanGraph,
    plan: &SoundPlan,
    fleet: Fleet,
    journal: Journal,
    kit: &mut Kit,
    papers: &Papers<'_>,
    lines: &[&[u8]],
    station: &mut T,
) -> Result<(), Fail>
    requires graph { graph.now ≡ graph_of plan.now }
    requires state { IsFleetState graph.now fleet }
    requires stands { T.tells → StandsWith plan.now (papers_in papers.now) journal fleet (T.clock station.old).seen }
    requires room { IsRoomFor graph.now kit.old.room }
{
    let mut fleet = fleet;
    let mut journal = journal;
    let set = settings(LIMIT, LIMIT);
    for line in lines {
        if line.len() > 256 {
            return Err(Fail::from("a short line"));
        }
        let turn = step(
            alloc,
            graph,
            plan,
            &mut fleet,
            &mut journal,
            kit,
            &set,
            papers,
            line,
            station,
        );
        if turn.is_err() {
            return Err(Fail::from("a turn"));
        }
    }
    Ok(())
}

/// A station that is attached, and empty.
fn attached(alloc: Global) -> Result<MemStation, Fail>
    ensures blank { IfOk result (λ station. IsBlankJournal (station_clock station).seen) }
    ensures kept { IfOk result (λ station. IsKept (station_clock station)) }
{
    let mut station = station_of(alloc, &[])?;
    match station.attach(alloc, "J") {
        Ok(()) => Ok(station),
        Err(_) => Err(Fail::from("attached")),
    }
}

/// A window, lines, and all that is sent.
type Row = (u32, &'static [&'static [u8]], &'static [u8]);

/// Robot 0 on its way through the crossing, told once too early.
const ON_ITS_WAY: &[&[u8]] = &[
    b"arrive 0 2 2",
    b"arrive 0 1 1",
    b"arrive 0 2 2",
    b"arrive 0 3 3",
];

const ROWS: [Row; 4] = [
    (
        1,
        ON_ITS_WAY,
        b"ready 0\nrelease 0 1 1 1\nrefused unreleased\nrelease 0 2 1 2\nok 1\nrelease 0 3 1 3\nok 2\nrelease 0 4 1 4\nrelease 1 1 1 2\nok 3\n",
    ),
    (
        2,
        ON_ITS_WAY,
        b"ready 0\nrelease 0 1 1 1\nrelease 0 2 1 2\nrefused gap\nrelease 0 3 1 3\nok 1\nrelease 0 4 1 4\nok 2\nrelease 1 1 1 2\nrelease 1 2 2 2\nok 3\n",
    ),
    (
        8,
        ON_ITS_WAY,
        b"ready 0\nrelease 0 1 1 1\nrelease 0 2 1 2\nrelease 0 3 1 3\nrelease 0 4 1 4\nrefused gap\nok 1\nok 2\nrelease 1 1 1 2\nrelease 1 2 2 2\nok 3\n",
    ),
    // A visit that is not released is refused as such first, and one that leaves out another before its tick is looked at.
    (
        2,
        &[
            b"arrive 1 2 0",
            b"arrive 0 3 0",
            b"arrive 0 2 1000000000001",
            b"arrive 0 1 1000000000001",
        ],
        b"ready 0\nrelease 0 1 1 1\nrelease 0 2 1 2\nrefused unreleased\nrefused unreleased\nrefused gap\nrefused tick\n",
    ),
];

#[test]
fn robots_hold_as_many_releases_as_their_window(rt: HostRuntime) -> Result<(), Fail> {
    for (window, lines, sent) in ROWS {
        let (plan, table) = crossing(rt.alloc())?;
        let mut station = attached(rt.alloc())?;
        if window == 0 || window > 8 {
            return Err(Fail::from("a window"));
        }
        talk(
            rt.alloc(),
            &plan,
            &table,
            &TEXTS,
            window,
            lines,
            &mut station,
        )?;
        assert_eq!(rt; station.sent(), sent);
    }
    Ok(())
}
