ghost use Rattle.std.specs.Prelude.{◌≤◌, All, IfOk, OnOk, length};
ghost use Rattle.fleet_base.specs.Plan.{HasRobots};

use crate::{CheckError, Unsound, check};
use fleet_base::{Cell, Grid, RawPlan, SoundPlan};
use std::alloc::Global;
use std::test::Fail;

/// The map of these rows, each cell free that is a dot.
fn grid_of(alloc: Global, rows: &str) -> Result<Grid, Fail> {
    let mut free = Vec::new(alloc);
    let mut height = 0u32;
    for row in rows.split_whitespace() {
        height = height.saturating_add(1);
        for byte in row.bytes() {
            free.push(byte == b'.')?;
        }
    }
    let width = free.len().checked_div(height as usize).ok_or("no row")?;
    let width = u32::try_from(width).ok().ok_or("a wide map")?;
    Ok(Grid::new(height, width, free).ok_or("no map")?)
}

/// The path of these cells, each of two digits: the row and the column.
fn path_of(alloc: Global, path: &str) -> Result<Vec<Cell>, Fail> {
    let mut cells = Vec::new(alloc);
    for cell in path.split_whitespace() {
        match cell.as_bytes() {
            [row @ b'0'..=b'9', col @ b'0'..=b'9'] => cells.push(Cell {
                row: u32::from(*row - b'0'),
                col: u32::from(*col - b'0'),
            })?,
            _ => return Err("a cell is two digits".into()),
        }
    }
    Ok(cells)
}

/// A path of so many cells, to and fro between two cells of a row.
fn shuttle(alloc: Global, row: u32, count: u32) -> Result<Vec<Cell>, Fail> {
    let mut cells = Vec::new(alloc);
    for tick in 0..count {
        cells.push(Cell { row, col: tick % 2 })?;
    }
    Ok(cells)
}

/// Adds a robot with this path.
fn add(plan: &mut RawPlan, path: Vec<Cell>) -> Result<(), Fail>
    requires { All (λ path. 1 ≤ length path) plan.old }
    ensures { OnOk result (All (λ path. 1 ≤ length path) plan.new) }
{
    if path.is_empty() {
        return Err("an empty path".into());
    }
    plan.push_path(path).ok().ok_or("memory")?;
    Ok(())
}

/// The plan of these paths, parted by a slash.
fn plan_of(alloc: Global, paths: &str) -> Result<RawPlan, Fail>
    ensures { IfOk result HasRobots }
{
    let mut plan = RawPlan::new(alloc);
    for path in paths.split('/') {
        add(&mut plan, path_of(alloc, path)?)?;
    }
    if plan.robots() == 0 {
        return Err("no robot".into());
    }
    Ok(plan)
}

/// The plan of robots that go to and fro, each in a row of its own, the first one over its own number of cells.
fn shuttles(alloc: Global, robots: u32, first: u32, others: u32) -> Result<RawPlan, Fail>
    ensures { IfOk result HasRobots }
{
    let mut plan = RawPlan::new(alloc);
    add(&mut plan, shuttle(alloc, 0, first)?)?;
    for row in 1..robots {
        add(&mut plan, shuttle(alloc, row, others)?)?;
    }
    if plan.robots() == 0 {
        return Err("no robot".into());
    }
    Ok(plan)
}

/// The answer in words: for a sound plan its robots and visits.
fn told(alloc: Global, answer: &Result<SoundPlan, CheckError>) -> Result<String, Fail> {
    let text = match answer {
        Ok(plan) => {
            let robots = plan.robots();
            let mut visits = 0u64;
            for robot in 0..robots {
                visits = visits.saturating_add(u64::from(plan.last(robot)) + 1);
            }
            format!(in alloc; "sound {robots} {visits}")?
        }
        Err(CheckError::Memory) => format!(in alloc; "memory")?,
        Err(CheckError::Unsound(fault)) => match fault {
            Unsound::TooLarge { which, count } => format!(in alloc; "{which:?} {count}")?,
            Unsound::Blocked { robot, tick } => format!(in alloc; "blocked {robot} {tick}")?,
            Unsound::Jump { robot, tick } => format!(in alloc; "jump {robot} {tick}")?,
            Unsound::Share { a, b, tick } => format!(in alloc; "share {a} {b} {tick}")?,
            Unsound::Swap { a, b, tick } => format!(in alloc; "swap {a} {b} {tick}")?,
            Unsound::Rotation { robots, tick } => {
                let mut text = format!(in alloc; "rotation {tick}")?;
                for robot in robots.as_slice() {
                    write!(text, " {robot}")?;
                }
                text
            }
        },
    };
    Ok(text)
}

#[test]
fn plans_and_their_first_faults(rt: HostRuntime) -> Result<(), Fail> {
    let crossing = "@@.@@ ..... @@.@@";
    let open = "..... ..... ..... .....";
    for (shows, map, paths, want) in [
        (
            "the crossing",
            crossing,
            "10 11 12 13 14 / 02 02 02 12 22",
            "sound 2 8",
        ),
        (
            "a cell visited twice",
            crossing,
            "11 12 13 12 11 / 02 02 02 02 12 22",
            "sound 2 8",
        ),
        ("a robot that stays", crossing, "12", "sound 1 1"),
        (
            "robots in a row",
            open,
            "02 03 / 01 02 / 00 01",
            "sound 3 6",
        ),
        (
            "a goal left in time",
            crossing,
            "02 02 12 / 11 12 13",
            "sound 2 5",
        ),
        (
            "two goals in one cell",
            crossing,
            "02 12 / 10 11 12",
            "share 0 1 2",
        ),
        (
            "a tree in the way",
            "@@.@@ ...T. @@.@@",
            "10 11 12 13 14 / 02 02 02 12 22",
            "blocked 0 3",
        ),
        ("a start in a wall", crossing, "12 / 00", "blocked 1 0"),
        ("a cell off the map", "..", "00 01 02", "blocked 0 2"),
        (
            "a missing cell",
            crossing,
            "10 11 13 14 / 02 02 02 12 22",
            "jump 0 2",
        ),
        ("a diagonal step", open, "00 11", "jump 0 1"),
        ("two starts in one cell", open, "00 / 00", "share 0 1 0"),
        (
            "two shared cells",
            open,
            "00 / 11 / 11 / 00 / 11",
            "share 0 3 0",
        ),
        ("a swap", "..", "00 01 / 01 00", "swap 0 1 1"),
        (
            "two swaps",
            open,
            "00 01 / 10 11 / 11 10 / 01 00",
            "swap 0 3 1",
        ),
        (
            "a rotation of four",
            open,
            "00 01 / 01 11 / 11 10 / 10 00",
            "rotation 1 0 1 2 3",
        ),
        (
            "the other way round",
            open,
            "00 01 / 10 00 / 11 10 / 01 11",
            "rotation 1 0 3 2 1",
        ),
        (
            "a rotation of six",
            open,
            "00 01 / 01 02 / 12 11 / 02 12 / 11 10 / 10 00",
            "rotation 1 0 1 3 2 4 5",
        ),
        (
            "a rotation of three",
            open,
            "00 01 / 01 11 / 11 00",
            "jump 2 1",
        ),
        (
            "two rotations",
            open,
            "03 04 / 00 01 / 04 14 / 01 11 / 14 13 / 11 10 / 13 03 / 10 00",
            "rotation 1 0 2 4 6",
        ),
        (
            "blocked and jump",
            "...@. .....",
            "00 02 / 13 03",
            "blocked 1 1",
        ),
        ("jump and share", open, "00 01 / 02 01 / 30 32", "jump 2 1"),
        (
            "share and swap",
            open,
            "00 01 / 01 00 / 20 21 / 22 21",
            "share 2 3 1",
        ),
        (
            "swap and rotation",
            open,
            "00 01 / 01 11 / 11 10 / 10 00 / 03 04 / 04 03",
            "swap 4 5 1",
        ),
        (
            "a share before a jump",
            open,
            "00 01 / 02 01 / 30 30 32",
            "share 0 1 1",
        ),
    ] {
        let grid = grid_of(rt.alloc(), map)?;
        let plan = plan_of(rt.alloc(), paths)?;
        let answer = check(rt.alloc(), &grid, &plan);
        assert_eq!(rt; told(rt.alloc(), &answer)?.as_str(), want, "{shows}");
    }
    Ok(())
}

#[test]
fn limits_met_and_passed_by_one(rt: HostRuntime) -> Result<(), Fail> {
    let mut free = Vec::new(rt.alloc());
    for _ in 0..2 * 257 {
        free.push(true)?;
    }
    let grid = Grid::new(257, 2, free).ok_or("no map")?;
    for (robots, first, others, want) in [
        (256, 1, 1, "sound 256 256"),
        (257, 1, 1, "Robots 257"),
        (1, 4097, 0, "sound 1 4097"),
        (1, 4098, 0, "Ticks 4097"),
        (16, 4096, 4096, "sound 16 65536"),
        (16, 4097, 4096, "Visits 65537"),
        (257, 4098, 4098, "Robots 257"),
        (17, 4096, 4098, "Ticks 4097"),
    ] {
        let plan = shuttles(rt.alloc(), robots, first, others)?;
        let answer = check(rt.alloc(), &grid, &plan);
        assert_eq!(rt;
            told(rt.alloc(), &answer)?.as_str(),
            want,
            "{robots} robots"
        );
    }
    Ok(())
}
