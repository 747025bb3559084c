// The command `check` over files and a line in memory, and words that are no command.
use station_api::{MemSource, MemStation};
use std::alloc::Global;
use std::fmt::Write;
use std::test::Fail;
use trial_base::{
    CORRIDOR_MAP, CORRIDOR_PLAN, CROSSING, CROSSING_MAP, CROSSING_PLAN, Texts, end_of, shelf_of,
    station_of,
};

const SQUARE_MAP: &[u8] = b"type octile\nheight 2\nwidth 2\nmap\n..\n..\n";

const CHECK: &[&str] = &["check", "M", "P"];

/// How a command ends over these files, and what it has sent; shelf and station fail at these calls.
fn answer_of(
    alloc: Global,
    words: &[&str],
    texts: Texts<'_>,
    failing: (&[u64], &[u64]),
) -> Result<(u8, MemStation), Fail> {
    let mut shelf = shelf_of(alloc, texts, failing.0)?;
    let mut source = MemSource::new(alloc, Vec::new(alloc), Vec::new(alloc));
    let mut station = station_of(alloc, failing.1)?;
    let code = end_of(alloc, words, &mut shelf, &mut source, &mut station)?;
    Ok((code, station))
}

/// Map, plan, status and line of a check.
type CheckRow = (&'static [u8], &'static [u8], u8, &'static [u8]);

const SOUND_PLANS: [CheckRow; 5] = [
    (CROSSING_MAP, CROSSING_PLAN, 0, b"sound 2 8 1\n"),
    (CORRIDOR_MAP, CORRIDOR_PLAN, 0, b"sound 2 16 6\n"),
    (CROSSING_MAP, b"Agent 0: (1,2)\n", 0, b"sound 1 1 0\n"),
    (
        CROSSING_MAP,
        b"Agent 0: (1,1)->(1,2)->(1,3)->(1,2)->(1,1)\nAgent 1: (0,2)->(0,2)->(0,2)->(0,2)->(1,2)->(2,2)\n",
        0,
        b"sound 2 8 2\n",
    ),
    (
        CROSSING_MAP,
        b"Agent 0: (0,2)->(0,2)->(1,2)\nAgent 1: (1,1)->(1,2)->(1,3)\n",
        0,
        b"sound 2 5 1\n",
    ),
];

const NO_TEXTS: [CheckRow; 6] = [
    (
        b"type octile\nheight 3\nwidth 5\nmap\n@@.@@\n.....\n",
        CROSSING_PLAN,
        3,
        b"fault map 7 short\n",
    ),
    (
        b"type octile\nheight 0\nwidth 5\nmap\n",
        CROSSING_PLAN,
        3,
        b"fault map 2 size\n",
    ),
    (b"", CROSSING_PLAN, 3, b"fault map 1 type\n"),
    (
        CROSSING_MAP,
        b"Agent 0: (1,x)\n",
        3,
        b"fault plan 1 13 path\n",
    ),
    (CROSSING_MAP, b"", 3, b"fault plan 1 1 empty\n"),
    (
        CROSSING_MAP,
        b"Agent 1: (1,0)\n",
        3,
        b"fault plan 1 7 label\n",
    ),
];

const UNSOUND_PLANS: [CheckRow; 5] = [
    (
        b"type octile\nheight 3\nwidth 5\nmap\n@@.@@\n...T.\n@@.@@\n",
        CROSSING_PLAN,
        3,
        b"fault blocked 0 3\n",
    ),
    (
        CROSSING_MAP,
        b"Agent 0: (1,0)->(1,1)->(1,3)->(1,4)\n",
        3,
        b"fault jump 0 2\n",
    ),
    (
        CROSSING_MAP,
        b"Agent 0: (0,2)->(1,2)\nAgent 1: (1,0)->(1,1)->(1,2)\n",
        3,
        b"fault share 0 1 2\n",
    ),
    (
        SQUARE_MAP,
        b"Agent 0: (0,0)->(0,1)\nAgent 1: (0,1)->(0,0)\n",
        3,
        b"fault swap 0 1 1\n",
    ),
    (
        SQUARE_MAP,
        b"Agent 0: (0,0)->(0,1)\nAgent 1: (0,1)->(1,1)\nAgent 2: (1,1)->(1,0)\nAgent 3: (1,0)->(0,0)\n",
        3,
        b"fault rotation 1 0 1 2 3\n",
    ),
];

#[test]
fn plans_are_checked(rt: HostRuntime) -> Result<(), Fail> {
    for rows in [SOUND_PLANS.as_slice(), &NO_TEXTS, &UNSOUND_PLANS] {
        for (map, plan, code, line) in rows {
            let (status, station) = answer_of(rt.alloc(), CHECK, (map, plan), (&[], &[]))?;
            assert_eq!(rt; status, *code);
            assert_eq!(rt; station.sent(), *line);
        }
    }
    Ok(())
}

#[test]
fn other_words_are_no_command(rt: HostRuntime) -> Result<(), Fail> {
    let rows: [&[&str]; 15] = [
        &[],
        &["check"],
        &["check", "M"],
        &["check", "M", "P", "X"],
        &["run", "M"],
        &["run", "M", "P"],
        &["run", "M", "P", "J", "X"],
        &["run", "M", "P", ""],
        &["run", "M", "P", "-J"],
        &["run", "-M", "P", "J"],
        &["run", "M", "", "J"],
        &["check", "", "P"],
        &["check", "M", "-P"],
        &["chec", "M", "P"],
        &["--help"],
    ];
    for words in rows {
        let (status, station) = answer_of(rt.alloc(), words, CROSSING, (&[], &[]))?;
        assert_eq!(rt; status, 2);
        assert_eq!(rt; station.sent(), b"fault usage\n".as_slice());
    }
    Ok(())
}

#[test]
fn faults_of_the_outside_have_their_status(rt: HostRuntime) -> Result<(), Fail> {
    let rows: [(&[&str], &[u64], &[u64], u8, &[u8]); 7] = [
        (&["check", "X", "P"], &[], &[], 5, b"fault read map\n"),
        (&["check", "M", "X"], &[], &[], 5, b"fault read plan\n"),
        (CHECK, &[1], &[], 5, b"fault read map\n"),
        (CHECK, &[2], &[], 5, b"fault read plan\n"),
        (CHECK, &[], &[1], 6, b""),
        (CHECK, &[1], &[1], 6, b""),
        (&["check"], &[], &[1], 6, b""),
    ];
    for (words, shelf, station, code, line) in rows {
        let (status, station) = answer_of(rt.alloc(), words, CROSSING, (shelf, station))?;
        assert_eq!(rt; status, code);
        assert_eq!(rt; station.sent(), line);
    }
    Ok(())
}

#[test]
fn a_long_file_is_not_read(rt: HostRuntime) -> Result<(), Fail> {
    let long = vec![in rt.alloc(); b'.'; (1 << 25) + 1]?;
    let texts = (long.as_slice(), CROSSING_PLAN);
    let (status, station) = answer_of(rt.alloc(), CHECK, texts, (&[], &[]))?;
    assert_eq!(rt; status, 3);
    assert_eq!(rt; station.sent(), b"fault long map 33554433\n".as_slice());
    Ok(())
}

/// Appends the line of a robot that goes to and fro between two cells, so many cells in all.
fn push_to_and_fro(plan: &mut String, robot: usize, cells: usize) -> Result<(), Fail> {
    write!(plan, "Agent {robot}: ")?;
    for cell in 0..cells {
        plan.push_str(if cell % 2 == 0 { "(0,1)->" } else { "(0,2)->" })?;
    }
    plan.push_str("\n")?;
    Ok(())
}

#[test]
fn limits_of_a_plan_are_named(rt: HostRuntime) -> Result<(), Fail> {
    let rows: [(usize, usize, &[u8]); 3] = [
        (257, 1, b"fault large robots 257\n"),
        (1, 4098, b"fault large ticks 4097\n"),
        (17, 4097, b"fault large visits 69649\n"),
    ];
    for (robots, cells, line) in rows {
        let mut plan = String::new(rt.alloc());
        for robot in 0..robots {
            push_to_and_fro(&mut plan, robot, cells)?;
        }
        let texts = (CROSSING_MAP, plan.as_bytes());
        let (status, station) = answer_of(rt.alloc(), CHECK, texts, (&[], &[]))?;
        assert_eq!(rt; status, 3);
        assert_eq!(rt; station.sent(), line);
    }
    Ok(())
}

/// Two robots that go to and fro in the same two cells, one after the other.
fn crowded_plan(alloc: Global) -> Result<String, Fail> {
    let mut plan = String::new(alloc);
    plan.push_str("Agent 0: ")?;
    for _ in 0..750 {
        plan.push_str("(0,1)->(0,2)->")?;
    }
    plan.push_str("(0,3)\nAgent 1: ")?;
    for _ in 0..1502 {
        plan.push_str("(1,1)->")?;
    }
    for _ in 0..750 {
        plan.push_str("(0,1)->(0,2)->")?;
    }
    plan.push_str("(0,1)\n")?;
    Ok(plan)
}

#[test]
fn too_many_pairs_are_counted(rt: HostRuntime) -> Result<(), Fail> {
    let map = b"type octile\nheight 2\nwidth 4\nmap\n....\n....\n";
    let plan = crowded_plan(rt.alloc())?;
    let texts = (map.as_slice(), plan.as_bytes());
    let (status, station) = answer_of(rt.alloc(), CHECK, texts, (&[], &[]))?;
    assert_eq!(rt; status, 3);
    assert_eq!(rt; station.sent(), b"fault pairs 1125750\n".as_slice());
    Ok(())
}
