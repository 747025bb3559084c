// Sessions that are set otherwise than the program's: by a limit for the journal's sides, or for the input.
ghost use Rattle.std.specs.Prelude.{◌≡◌, IfOk};
ghost use Rattle.fleet_base.specs.Pairs.{pairs_of};

use crate::pieces::{at_once, byte_by_byte};
use fleet_base::{PairTable, SoundPlan, Why};
use fleet_recovery::recover;
use fleet_serve::{Kit, Papers, ServeFault, Settings, Turn, serve, step};
use plan_graph::PlanGraph;
use plan_scenes::planned;
use station_api::{MemStation, Source, Station};
use std::alloc::Global;
use std::test::Fail;
use trial_base::{CROSSING, CROSSING_MAP, CROSSING_PLAN, sent_behind, session, side_a, station_of};

/// More bytes than any side and any input here has.
pub const LIMIT: u64 = 1 << 20;

pub const TEXTS: Papers<'static> = Papers {
    map: CROSSING_MAP,
    plan: CROSSING_PLAN,
};

pub fn settings(side_limit: u64, input_limit: u64) -> Settings {
    Settings {
        budget: 0,
        quiet: false,
        side_limit,
        input_limit,
    }
}

/// The plan of the crossing, with its pairs.
pub fn crossing(alloc: Global) -> Result<(SoundPlan, PairTable), Fail>
    ensures { IfOk result (λ made. made.1 ≡ pairs_of made.0) }
{
    planned(alloc, plan_scenes::CROSSING)
}

/// How the session of a journal of the crossing ends that is set so.
fn served<S: Source, T: Station>(
    alloc: Global,
    set: &Settings,
    source: &mut S,
    station: &mut T,
) -> Result<Option<ServeFault>, Fail> {
    let (plan, table) = crossing(alloc)?;
    let graph = PlanGraph::new(alloc, &plan, &table)?;
    let mut kit = Kit::new(alloc, &graph)?;
    let limit = set.side_limit;
    match recover(
        alloc,
        station,
        &plan,
        &table,
        CROSSING_MAP,
        CROSSING_PLAN,
        limit,
    ) {
        Ok((mut fleet, mut journal)) => Ok(serve(
            alloc,
            &graph,
            &plan,
            &mut fleet,
            &mut journal,
            &mut kit,
            set,
            &TEXTS,
            source,
            station,
        )
        .err()),
        Err(_) => Err(Fail::from("a journal")),
    }
}

/// The turn of one line in the session of a journal of the crossing that is set so.
fn stepped<T: Station>(
    alloc: Global,
    set: &Settings,
    line: &[u8],
    station: &mut T,
) -> Result<Turn, Fail> {
    if line.len() > 1 << 20 {
        return Err(Fail::from("a short line"));
    }
    let (plan, table) = crossing(alloc)?;
    let graph = PlanGraph::new(alloc, &plan, &table)?;
    let mut kit = Kit::new(alloc, &graph)?;
    let limit = set.side_limit;
    match recover(
        alloc,
        station,
        &plan,
        &table,
        CROSSING_MAP,
        CROSSING_PLAN,
        limit,
    ) {
        Ok((mut fleet, mut journal)) => match step(
            alloc,
            &graph,
            &plan,
            &mut fleet,
            &mut journal,
            &mut kit,
            set,
            &TEXTS,
            line,
            station,
        ) {
            Ok(turn) => Ok(turn),
            Err(_) => Err(Fail::from("a turn")),
        },
        Err(_) => Err(Fail::from("a journal")),
    }
}

/// A station that is attached.
fn attached(alloc: Global) -> Result<MemStation, Fail> {
    let mut station = station_of(alloc, &[])?;
    match station.attach(alloc, "J") {
        Ok(()) => Ok(station),
        Err(_) => Err(Fail::from("attached")),
    }
}

/// How a first session ends that is set so and hears reports from this source, and the station that it leaves.
fn end_of<S: Source>(
    alloc: Global,
    set: &Settings,
    source: &mut S,
) -> Result<(Option<ServeFault>, MemStation), Fail> {
    let mut station = attached(alloc)?;
    let end = served(alloc, set, source, &mut station)?;
    Ok((end, station))
}

#[test]
fn a_side_holds_what_it_has_room_for(rt: HostRuntime) -> Result<(), Fail> {
    let rows: [(u64, &[u8], &[u8], usize); 7] = [
        (
            186,
            b"arrive 0 1 1\narrive 0 2 2\n",
            b"refused full\nrefused unreleased\n",
            165,
        ),
        (
            187,
            b"arrive 0 1 1\narrive 0 2 2\narrive 0 1 1\n",
            b"release 0 2 1 2\nok 1\nrefused full\nknown\n",
            187,
        ),
        (
            208,
            b"arrive 0 1 1\narrive 0 2 2\n",
            b"release 0 2 1 2\nok 1\nrefused full\n",
            187,
        ),
        (
            209,
            b"arrive 0 1 1\narrive 0 2 2\narrive 0 3 3\n",
            b"release 0 2 1 2\nok 1\nrelease 0 3 1 3\nok 2\nrefused full\n",
            209,
        ),
        // A delay has room for each open pair, of which there is one.
        (198, b"delay 0 1 5 0\n", b"refused full\n", 165),
        (
            199,
            b"delay 0 1 5 0\n",
            b"order optimal 11\nswitch 0\ncert bound\nrelease 1 1 1 2\nok 1\n",
            199,
        ),
        // The gate moves by the frame that is written, which names no pair here.
        (
            199,
            b"delay 1 1 1 0\n",
            b"order spent 10 7\ncert open 7\nok 1\n",
            195,
        ),
    ];
    for (limit, reports, answers, length) in rows {
        let mut source = at_once(rt.alloc(), reports)?;
        let (end, station) = end_of(rt.alloc(), &settings(limit, LIMIT), &mut source)?;
        assert_eq!(rt; end, None);
        assert_eq!(rt; station.sent(), answers);
        assert_eq!(rt; side_a(rt.alloc(), &station)?.len(), length);
    }
    Ok(())
}

#[test]
fn input_is_taken_up_to_its_limit(rt: HostRuntime) -> Result<(), Fail> {
    let rows: [(&[u8], u64, Option<ServeFault>, &[u8]); 5] = [
        (b"arrive 0 1 1\n", 13, None, b"release 0 2 1 2\nok 1\n"),
        (b"arrive 0 1 1\n", 12, Some(ServeFault::Limit), b""),
        (
            b"arrive 0 1 1\narrive 0 2 2\n",
            13,
            Some(ServeFault::Limit),
            b"release 0 2 1 2\nok 1\n",
        ),
        (b"", 0, None, b""),
        (b"\n", 0, Some(ServeFault::Limit), b""),
    ];
    for (reports, limit, want, answers) in rows {
        let set = settings(LIMIT, limit);
        let (end, station) = end_of(rt.alloc(), &set, &mut at_once(rt.alloc(), reports)?)?;
        assert_eq!(rt; end, want);
        assert_eq!(rt; station.sent(), answers);
        let (end, station) = end_of(rt.alloc(), &set, &mut byte_by_byte(rt.alloc(), reports)?)?;
        assert_eq!(rt; end, want);
        assert_eq!(rt; station.sent(), answers);
    }
    Ok(())
}

/// The turn of a line after these reports, and what is sent.
fn turn_after(alloc: Global, reports: &[u8], line: &[u8]) -> Result<(Turn, Vec<u8>), Fail> {
    let mut station = station_of(alloc, &[])?;
    session(alloc, CROSSING, reports, &mut station)?;
    let front = station.sent().len();
    let turn = stepped(alloc, &settings(209, LIMIT), line, &mut station)?;
    Ok((turn, sent_behind(alloc, &station, front)?))
}

/// Reports, a line, its turn and the answer.
type Row = (&'static [u8], &'static [u8], Turn, &'static [u8]);

const TURNS: [Row; 10] = [
    (
        b"",
        b"arrive 0 1 1",
        Turn::Done { count: 1 },
        b"release 0 2 1 2\nok 1\n",
    ),
    (
        b"",
        b"delay 0 1 3 1",
        Turn::Done { count: 1 },
        b"order optimal 10\nswitch 0\ncert bound\nrelease 1 1 1 2\nok 1\n",
    ),
    (b"arrive 0 1 1\n", b"arrive 0 1 0", Turn::Known, b"known\n"),
    (
        b"",
        b"arrive 0 2 1",
        Turn::Refused(Why::Unreleased),
        b"refused unreleased\n",
    ),
    (
        b"",
        b"arrive 7 1 1",
        Turn::Refused(Why::Robot),
        b"refused robot\n",
    ),
    (
        b"",
        b"arrive 0 5 1",
        Turn::Refused(Why::Index),
        b"refused index\n",
    ),
    (
        b"",
        b"delay 1 1 1000001 0",
        Turn::Refused(Why::Size),
        b"refused size\n",
    ),
    (
        b"arrive 0 1 1\n",
        b"delay 0 1 3 1",
        Turn::Refused(Why::Arrived),
        b"refused arrived\n",
    ),
    (
        b"arrive 0 1 1\narrive 0 2 2\n",
        b"arrive 0 3 3",
        Turn::Refused(Why::Full),
        b"refused full\n",
    ),
    (
        b"",
        b"arrive 0 01 1",
        Turn::Refused(Why::Line),
        b"refused line\n",
    ),
];

#[test]
fn each_line_has_its_turn(rt: HostRuntime) -> Result<(), Fail> {
    for (reports, line, want, answer) in TURNS {
        let (turn, sent) = turn_after(rt.alloc(), reports, line)?;
        assert_eq!(rt; turn, want);
        assert_eq!(rt; sent.as_slice(), answer);
    }
    Ok(())
}
