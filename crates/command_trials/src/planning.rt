// The command `plan` over a map and a scenario, which lies under the name of the plan: `plan M P`.
use station_api::{MemSource, MemStation};
use std::alloc::Global;
use std::fmt::Write;
use std::test::Fail;
use trial_base::{CROSSING_MAP, Texts, end_of, shelf_of, station_of};

const PLAN: &[&str] = &["plan", "M", "P"];

const PAIR_MAP: &[u8] = b"type octile\nheight 1\nwidth 2\nmap\n..\n";

const SQUARE_MAP: &[u8] = b"type octile\nheight 2\nwidth 2\nmap\n..\n..\n";

const CROSSING_SCEN: &[u8] =
    b"version 1\n0\tm.map\t5\t3\t0\t1\t4\t1\t4\n0\tm.map\t5\t3\t2\t0\t2\t2\t2\n";

const CROSSING_ANSWER: &[u8] =
    b"Agent 0: (1,0)->(1,1)->(1,2)->(1,3)->(1,4)\nAgent 1: (0,2)->(1,2)->(2,2)\n";

/// How a command ends over these files, and what it has sent; shelf and station fail at these calls.
fn answer_of(
    alloc: Global,
    words: &[&str],
    texts: Texts<'_>,
    failing: (&[u64], &[u64]),
) -> Result<(u8, MemStation), Fail> {
    let mut shelf = shelf_of(alloc, texts, failing.0)?;
    let mut source = MemSource::new(alloc, Vec::new(alloc), Vec::new(alloc));
    let mut station = station_of(alloc, failing.1)?;
    let code = end_of(alloc, words, &mut shelf, &mut source, &mut station)?;
    Ok((code, station))
}

/// Words, map, scenario, the plan, and the line of its check.
type PlanRow = (
    &'static [&'static str],
    &'static [u8],
    &'static [u8],
    &'static [u8],
    &'static [u8],
);

const PLANS: [PlanRow; 6] = [
    (
        PLAN,
        CROSSING_MAP,
        CROSSING_SCEN,
        CROSSING_ANSWER,
        b"sound 2 8 1\n",
    ),
    // Line ends of another system, the other version, buckets out of order, and lengths of many digits.
    (
        PLAN,
        b"type octile\r\nheight 3\r\nwidth 5\r\nmap\r\n@@.@@\r\n.....\r\n@@.@@\r\n",
        b"version 1.0\r\n7\tmaps/a b.map\t5\t3\t0\t1\t4\t1\t4.00000000\r\n0\tmaps/a b.map\t5\t3\t2\t0\t2\t2\t2.82842712474619\r\n\r\n",
        CROSSING_ANSWER,
        b"sound 2 8 1\n",
    ),
    (
        &["plan", "--robots", "1", "M", "P", "--horizon=4"],
        CROSSING_MAP,
        CROSSING_SCEN,
        b"Agent 0: (1,0)->(1,1)->(1,2)->(1,3)->(1,4)\n",
        b"sound 1 5 0\n",
    ),
    // The task that is not taken is bad.
    (
        &["plan", "M", "--robots=1", "P"],
        PAIR_MAP,
        b"version 1\n0\tm\t2\t1\t0\t0\t1\t0\t1\n0\tm\t2\t1\t0\t0\t1\t0\t1",
        b"Agent 0: (0,0)->(0,1)\n",
        b"sound 1 2 0\n",
    ),
    (
        &["plan", "M", "P", "--robots", "256", "--horizon", "4096"],
        PAIR_MAP,
        b"version 1\n0\tm\t2\t1\t1\t0\t1\t0\t0\n",
        b"Agent 0: (0,1)\n",
        b"sound 1 1 0\n",
    ),
    (
        PLAN,
        CROSSING_MAP,
        b"version 1\n0\tm\t5\t3\t1\t1\t4\t1\t3\n0\tm\t5\t3\t2\t0\t2\t2\t2\n",
        b"Agent 0: (1,1)->(1,2)->(1,3)->(1,4)\nAgent 1: (0,2)->(0,2)->(1,2)->(2,2)\n",
        b"sound 2 7 1\n",
    ),
];

#[test]
fn tasks_are_planned_and_checked(rt: HostRuntime) -> Result<(), Fail> {
    for (words, map, scen, plan, checked) in PLANS {
        let (code, station) = answer_of(rt.alloc(), words, (map, scen), (&[], &[]))?;
        assert_eq!(rt; code, 0);
        assert_eq!(rt; station.sent(), plan);
        // One text is sent, and the journal's disk is not called.
        assert_eq!(rt; station.calls(), 1);
        let texts = (map, station.sent());
        let (code, station) = answer_of(rt.alloc(), &["check", "M", "P"], texts, (&[], &[]))?;
        assert_eq!(rt; code, 0);
        assert_eq!(rt; station.sent(), checked);
    }
    Ok(())
}

/// Words, map, scenario and the line that refuses them with status 3.
type FaultRow = (
    &'static [&'static str],
    &'static [u8],
    &'static [u8],
    &'static [u8],
);

const FAULTS: [FaultRow; 13] = [
    (
        PLAN,
        PAIR_MAP,
        b"version 1\n0\tm\t2\t1\t0\t0\t1\t0\t1\n0\tm\t2\t1\t1\t0\t0\t0\t1\n",
        b"fault nopath 1\n",
    ),
    (
        PLAN,
        SQUARE_MAP,
        b"version 1\n0\tm\t2\t2\t0\t0\t1\t0\t1\n0\tm\t2\t2\t1\t0\t1\t1\t1\n0\tm\t2\t2\t1\t1\t0\t1\t1\n0\tm\t2\t2\t0\t1\t0\t0\t1\n",
        b"fault nopath 3\n",
    ),
    (
        &["plan", "M", "P", "--horizon", "3"],
        CROSSING_MAP,
        CROSSING_SCEN,
        b"fault nopath 0\n",
    ),
    (PLAN, b"", CROSSING_SCEN, b"fault map 1 type\n"),
    (PLAN, b"", b"", b"fault map 1 type\n"),
    (PLAN, CROSSING_MAP, b"", b"fault scen 1 version\n"),
    (
        PLAN,
        CROSSING_MAP,
        b"version 1\n\n\n",
        b"fault scen 2 empty\n",
    ),
    (
        PLAN,
        CROSSING_MAP,
        b"version 1\n0\tm\t5\t3\t0\t1\t4\t1\t4\n0 m 5 3 2 0 2 2 2\n",
        b"fault scen 3 fields\n",
    ),
    (
        PLAN,
        CROSSING_MAP,
        b"version 1\n0\tm\t5\t3\t0\t1\t4\tx\t4\n",
        b"fault scen 2 number\n",
    ),
    (
        PLAN,
        CROSSING_MAP,
        b"version 1\n0\tm\t5\t3\t0\t1\t4\t1\t4\n0\tm\t3\t5\t2\t0\t2\t2\t2\n",
        b"fault task 1 size\n",
    ),
    (
        PLAN,
        CROSSING_MAP,
        b"version 1\n0\tm\t5\t3\t0\t0\t0\t0\t4\n",
        b"fault task 0 start\n",
    ),
    (
        PLAN,
        CROSSING_MAP,
        b"version 1\n0\tm\t5\t3\t0\t1\t5\t1\t4\n",
        b"fault task 0 goal\n",
    ),
    (
        PLAN,
        CROSSING_MAP,
        b"version 1\n0\tm\t5\t3\t0\t1\t4\t1\t4\n0\tm\t5\t3\t2\t0\t4\t1\t2\n0\tm\t5\t3\t0\t1\t4\t1\t4\n",
        b"fault task 1 samegoal\n",
    ),
];

#[test]
fn what_has_no_plan_is_refused(rt: HostRuntime) -> Result<(), Fail> {
    for (words, map, scen, line) in FAULTS {
        let (code, station) = answer_of(rt.alloc(), words, (map, scen), (&[], &[]))?;
        assert_eq!(rt; code, 3);
        assert_eq!(rt; station.sent(), line);
    }
    Ok(())
}

/// A scenario on a row of 1,026 cells: so many robots that stay, and one more at the start of the first.
fn crowded_scen(alloc: Global, robots: u32) -> Result<String, Fail> {
    let mut scen = String::from_str(alloc, "version 1\n")?;
    for robot in 0..robots {
        writeln!(scen, "0\tm\t1026\t1\t{robot}\t0\t{robot}\t0\t0")?;
    }
    writeln!(scen, "0\tm\t1026\t1\t0\t0\t99\t0\t99")?;
    Ok(scen)
}

/// A map of one row of so many free cells.
fn row_map(alloc: Global, cells: usize) -> Result<String, Fail> {
    let mut map = String::new(alloc);
    writeln!(map, "type octile\nheight 1\nwidth {cells}\nmap")?;
    for _cell in 0..cells {
        map.push_str(".")?;
    }
    Ok(map)
}

#[test]
fn so_many_tasks_are_taken(rt: HostRuntime) -> Result<(), Fail> {
    let map = row_map(rt.alloc(), 1026)?;
    let rows: [(u32, &[&str], u8); 5] = [
        (32, PLAN, 0),
        (31, PLAN, 3),
        (32, &["plan", "M", "P", "--robots", "33"], 3),
        (256, &["plan", "M", "P", "--robots", "256"], 0),
        (255, &["plan", "M", "P", "--robots", "256"], 3),
    ];
    for (robots, words, want) in rows {
        let scen = crowded_scen(rt.alloc(), robots)?;
        let texts = (map.as_bytes(), scen.as_bytes());
        let (code, station) = answer_of(rt.alloc(), words, texts, (&[], &[]))?;
        assert_eq!(rt; code, want);
        if want == 3 {
            let line = format!(in rt.alloc(); "fault task {robots} samestart\n")?;
            assert_eq!(rt; station.sent(), line.as_bytes());
        }
    }
    Ok(())
}

#[test]
fn the_usual_horizon_is_kept(rt: HostRuntime) -> Result<(), Fail> {
    let map = row_map(rt.alloc(), 1026)?;
    let rows: [(&[u8], &[&str], u8); 3] = [
        (b"version 1\n0\tm\t1026\t1\t0\t0\t1024\t0\t1\n", PLAN, 0),
        (b"version 1\n0\tm\t1026\t1\t0\t0\t1025\t0\t1\n", PLAN, 3),
        (
            b"version 1\n0\tm\t1026\t1\t0\t0\t1025\t0\t1\n",
            &["plan", "M", "P", "--horizon=1025"],
            0,
        ),
    ];
    for (scen, words, want) in rows {
        let (code, _) = answer_of(rt.alloc(), words, (map.as_bytes(), scen), (&[], &[]))?;
        assert_eq!(rt; code, want);
    }
    Ok(())
}

#[test]
fn other_words_plan_nothing(rt: HostRuntime) -> Result<(), Fail> {
    let rows: [&[&str]; 14] = [
        &["plan"],
        &["plan", "M"],
        &["plan", "M", "P", "X"],
        &["plan", "M", ""],
        &["plan", "M", "P", "--robots", "0"],
        &["plan", "M", "P", "--robots", "257"],
        &["plan", "M", "P", "--robots=01"],
        &["plan", "M", "P", "--robots"],
        &["plan", "M", "P", "--horizon", "0"],
        &["plan", "M", "P", "--horizon", "4097"],
        &["plan", "M", "P", "--horizon="],
        &["plan", "M", "P", "--horizon", "1", "--horizon", "1"],
        &["plan", "M", "P", "--plan"],
        &["plan", "M", "P", "--budget", "1"],
    ];
    for words in rows {
        let texts = (CROSSING_MAP, CROSSING_SCEN);
        let (code, station) = answer_of(rt.alloc(), words, texts, (&[], &[]))?;
        assert_eq!(rt; code, 2);
        assert_eq!(rt; station.sent(), b"fault usage\n".as_slice());
    }
    Ok(())
}

#[test]
fn faults_of_the_outside_have_their_status(rt: HostRuntime) -> Result<(), Fail> {
    let rows: [(&[&str], &[u64], &[u64], u8, &[u8]); 6] = [
        (&["plan", "X", "P"], &[], &[], 5, b"fault read map\n"),
        (&["plan", "M", "X"], &[], &[], 5, b"fault read scen\n"),
        (PLAN, &[1], &[], 5, b"fault read map\n"),
        (PLAN, &[2], &[], 5, b"fault read scen\n"),
        (PLAN, &[], &[1], 6, b""),
        (PLAN, &[2], &[1], 6, b""),
    ];
    for (words, shelf, station, want, line) in rows {
        let texts = (CROSSING_MAP, CROSSING_SCEN);
        let (code, station) = answer_of(rt.alloc(), words, texts, (shelf, station))?;
        assert_eq!(rt; code, want);
        assert_eq!(rt; station.sent(), line);
    }
    Ok(())
}

#[test]
fn a_long_scenario_is_not_read(rt: HostRuntime) -> Result<(), Fail> {
    let long = vec![in rt.alloc(); b'.'; (1 << 25) + 1]?;
    let texts = (CROSSING_MAP, long.as_slice());
    let (code, station) = answer_of(rt.alloc(), PLAN, texts, (&[], &[]))?;
    assert_eq!(rt; code, 3);
    assert_eq!(rt; station.sent(), b"fault long scen 33554433\n".as_slice());
    Ok(())
}
