use super::*;
use fleet_base::Cell;
use std::test::Fail;

// Each text, and the line and the kind of its first fault.
#[test]
fn faults_of_the_header(rt: HostRuntime) {
    for (text, line, kind) in [
        ("", 1, MapKind::Octile),
        ("\ntype octile\n", 1, MapKind::Octile),
        ("type octile \n", 1, MapKind::Octile),
        ("type octile\r\r\n", 1, MapKind::Octile),
        ("type octile", 2, MapKind::Height),
        ("type octile\nheight\n", 2, MapKind::Height),
        ("type octile\nheight \n", 2, MapKind::Height),
        ("type octile\nheight 01\n", 2, MapKind::Height),
        ("type octile\nheight +1\n", 2, MapKind::Height),
        ("type octile\nheight 1 \n", 2, MapKind::Height),
        (
            "type octile\nheight 99999999999999999999x\n",
            2,
            MapKind::Height,
        ),
        ("type octile\nwidth 1\n", 2, MapKind::Height),
        ("type octile\nheight 0\n", 2, MapKind::Size),
        ("type octile\nheight 4097\n", 2, MapKind::Size),
        (
            "type octile\nheight 99999999999999999999\n",
            2,
            MapKind::Size,
        ),
        ("type octile\nheight 4096\n", 3, MapKind::Width),
        ("type octile\nheight 1\nheight 1\n", 3, MapKind::Width),
        ("type octile\nheight 1\nwidth 00\n", 3, MapKind::Width),
        ("type octile\nheight 1\nwidth 0\n", 3, MapKind::Size),
        ("type octile\nheight 1\nwidth 4097", 3, MapKind::Size),
        (
            "type octile\nheight 1\nwidth 99999999999999999999\n",
            3,
            MapKind::Size,
        ),
        ("type octile\nheight 1\nwidth 4096\n", 4, MapKind::Map),
        ("type octile\nheight 1\nwidth 1\nmap.\n", 4, MapKind::Map),
    ] {
        assert!(rt; text.len() < 100);
        let found = read_map(rt.alloc(), text.as_bytes()).err();
        assert_eq!(rt;
            found,
            Some(MapError::Fault(MapFault { line, kind })),
            "{text:?}"
        );
    }
}

// The same below the header of two rows of three cells.
#[test]
fn faults_below_the_header(rt: HostRuntime) -> Result<(), Fail> {
    for (rows, line, kind) in [
        ("", 5, MapKind::Short),
        (".G@\n", 6, MapKind::Short),
        (".G@", 6, MapKind::Short),
        ("\nOTS\n", 5, MapKind::Row),
        (".G\nOTS\n", 5, MapKind::Row),
        ("xx\n", 5, MapKind::Row),
        (".G\r@\nOTS\n", 5, MapKind::Row),
        (".G@\nOTS.\n", 6, MapKind::Row),
        (".G@\n\n", 6, MapKind::Row),
        ("xG@\nOTS\n", 5, MapKind::Char),
        (".G@\nOTs", 6, MapKind::Char),
        (".G@\nOT \n", 6, MapKind::Char),
        (".G@\nOTS\n.", 7, MapKind::More),
        (".G@\nOTS\n \n", 7, MapKind::More),
        (".G@\nOTS\n\n\r\n\nOTS\n\n", 10, MapKind::More),
    ] {
        let text = format!(in rt.alloc(); "type octile\nheight 2\nwidth 3\nmap\n{rows}")?;
        assert!(rt; text.len() < 100);
        let found = read_map(rt.alloc(), text.as_bytes()).err();
        assert_eq!(rt;
            found,
            Some(MapError::Fault(MapFault { line, kind })),
            "{rows:?}"
        );
    }
    Ok(())
}

// Each text, and the canonical text of the map that it means.
#[test]
fn maps_are_read_and_written(rt: HostRuntime) -> Result<(), Fail> {
    for (text, canonical) in [
        (
            "type octile\nheight 2\nwidth 4\nmap\n.GS.\n@OTW\n",
            "type octile\nheight 2\nwidth 4\nmap\n....\n@@@@\n",
        ),
        (
            "type octile\r\nheight 1\r\nwidth 3\r\nmap\r\nS@W\r\n\r\n\n\r",
            "type octile\nheight 1\nwidth 3\nmap\n.@@\n",
        ),
        (
            "type octile\nheight 2\nwidth 1\nmap\nW\nS",
            "type octile\nheight 2\nwidth 1\nmap\n@\n.\n",
        ),
        (
            "type octile\nheight 1\nwidth 2\nmap\n@.\n",
            "type octile\nheight 1\nwidth 2\nmap\n@.\n",
        ),
    ] {
        assert!(rt; text.len() < 100);
        let grid = read_map(rt.alloc(), text.as_bytes())?;
        let written = write_map(rt.alloc(), &grid)?;
        assert_eq!(rt; written.as_slice(), canonical.as_bytes());
    }
    Ok(())
}

// The largest height, whose last row is missing at first.
#[test]
fn the_highest_map(rt: HostRuntime) -> Result<(), Fail> {
    let mut text = String::from_str(rt.alloc(), "type octile\nheight 4096\nwidth 2\nmap\n")?;
    for _row in 0..4095 {
        text.push_str("@.\n")?;
    }
    assert!(rt; text.len() < 20000);
    let found = read_map(rt.alloc(), text.as_bytes()).err();
    assert_eq!(rt;
        found,
        Some(MapError::Fault(MapFault {
            line: 4100,
            kind: MapKind::Short
        }))
    );
    text.push_str("@.\n")?;
    assert!(rt; text.len() < 20000);
    let grid = read_map(rt.alloc(), text.as_bytes())?;
    assert_eq!(rt; write_map(rt.alloc(), &grid)?.as_slice(), text.as_bytes());
    Ok(())
}

// Each text, and the line and the kind of its first fault as a scenario.
#[test]
fn faults_of_scenarios(rt: HostRuntime) {
    for (text, line, kind) in [
        ("", 1, ScenKind::Version),
        ("\nversion 1\n", 1, ScenKind::Version),
        ("version 1.00\n", 1, ScenKind::Version),
        ("version 2\n", 1, ScenKind::Version),
        ("version 1 \n", 1, ScenKind::Version),
        ("version\t1\n", 1, ScenKind::Version),
        ("version 1", 2, ScenKind::Empty),
        ("version 1.0\r\n\r\n\n", 2, ScenKind::Empty),
        ("version 1\n \n", 2, ScenKind::Fields),
        (
            "version 1\n\nb\tm\t5\t3\t0\t1\t4\t1\t4\n",
            2,
            ScenKind::Fields,
        ),
        ("version 1\nb\tm\t5\t3\t0\t1\t4\t1\n", 2, ScenKind::Fields),
        (
            "version 1\nb\tm\t5\t3\t0\t1\t4\t1\t4\t4\n",
            2,
            ScenKind::Fields,
        ),
        ("version 1\nb\tm\t5\t3\t0\t1\t4\t1\t\n", 2, ScenKind::Fields),
        ("version 1\n\tm\t5\t3\t0\t1\t4\t1\t4\n", 2, ScenKind::Fields),
        ("version 1\nb\tm\tx\t3\t0\t1\t\t1\t4\n", 2, ScenKind::Fields),
        ("version 1\nb m 5 3 0 1 4 1 4\n", 2, ScenKind::Fields),
        (
            "version 1\nb\tm\t5\t3\t0\t1\t4\tx\t4\n",
            2,
            ScenKind::Number,
        ),
        (
            "version 1\nb\tm\t05\t3\t0\t1\t4\t1\t4\n",
            2,
            ScenKind::Number,
        ),
        (
            "version 1\nb\tm\t5\t+3\t0\t1\t4\t1\t4\n",
            2,
            ScenKind::Number,
        ),
        (
            "version 1\nb\tm\t5\t3\t-0\t1\t4\t1\t4\n",
            2,
            ScenKind::Number,
        ),
        (
            "version 1\nb\tm\t5\t3\t0\t4294967296\t4\t1\t4\n",
            2,
            ScenKind::Number,
        ),
        (
            "version 1\nb\tm\t5\t3\t0\t1\t4\t1\t4\n\nb\tm\t5\t3\t0\t1\t4\t1\t4\n",
            3,
            ScenKind::Fields,
        ),
        (
            "version 1\nb\tm\t5\t3\t0\t1\t4\t1\t4\nb\tm\t5\t3\t0\t1\t4\t1 \t4\nx",
            3,
            ScenKind::Number,
        ),
    ] {
        assert!(rt; text.len() < 100);
        let found = read_scen(rt.alloc(), text.as_bytes()).err();
        assert_eq!(rt;
            found,
            Some(ScenError::Fault(ScenFault { line, kind })),
            "{text:?}"
        );
    }
}

// Each text, and its tasks: width, height, and the columns and rows of start and goal.
#[test]
fn scenarios_are_read(rt: HostRuntime) -> Result<(), Fail> {
    for (text, tasks) in [
        (
            "version 1\n0\tm.map\t5\t3\t0\t1\t4\t1\t4\n0\tm.map\t5\t3\t2\t0\t2\t2\t2\n",
            [(5, 3, (0, 1), (4, 1)), (5, 3, (2, 0), (2, 2))],
        ),
        (
            "version 1.0\r\n7\ta b\t4294967295\t1\t2\t3\t4\t5\t20.48528137\r\n3\tx\t6\t7\t8\t9\t10\t0\tx\r\n\r\n\n\r",
            [(4294967295, 1, (2, 3), (4, 5)), (6, 7, (8, 9), (10, 0))],
        ),
    ] {
        assert!(rt; text.len() < 200);
        let found = read_scen(rt.alloc(), text.as_bytes())?;
        let wanted = tasks.map(|(width, height, start, goal)| Task {
            width,
            height,
            start: cell_of(start),
            goal: cell_of(goal),
        });
        assert_eq!(rt; found.as_slice(), wanted.as_slice(), "{text:?}");
    }
    Ok(())
}

fn cell_of((col, row): (u32, u32)) -> Cell {
    Cell { row, col }
}
