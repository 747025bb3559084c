ghost use Rattle.std.specs.Prelude.{◌≤◌, All, IfOk, OnOk, length};
ghost use Rattle.fleet_base.specs.Plan.{HasRobots};

use super::*;
use fleet_base::{Cell, Grid, RawPlan};
use map_text::{Task, TaskList};
use plan_check::check;
use std::alloc::Global;
use std::test::Fail;

/// The map of these rows, each cell free that is a dot.
fn grid_of(alloc: Global, rows: &str) -> Result<Grid, Fail> {
    let mut free = Vec::new(alloc);
    let mut height = 0u32;
    for row in rows.split_whitespace() {
        height = height.saturating_add(1);
        for byte in row.bytes() {
            free.push(byte == b'.')?;
        }
    }
    let width = free.len().checked_div(height as usize).ok_or("no row")?;
    let width = u32::try_from(width).ok().ok_or("a wide map")?;
    Ok(Grid::new(height, width, free).ok_or("no map")?)
}

/// The tasks on a map, each of four digits: row and column of the start and of the goal.
fn tasks_of(alloc: Global, grid: &Grid, tasks: &str) -> Result<TaskList, Fail> {
    let mut list = TaskList::new(alloc);
    for task in tasks.split_whitespace() {
        match task.as_bytes() {
            [
                a @ b'0'..=b'9',
                b @ b'0'..=b'9',
                c @ b'0'..=b'9',
                d @ b'0'..=b'9',
            ] => list
                .push(Task {
                    width: grid.width(),
                    height: grid.height(),
                    start: Cell {
                        row: u32::from(*a - b'0'),
                        col: u32::from(*b - b'0'),
                    },
                    goal: Cell {
                        row: u32::from(*c - b'0'),
                        col: u32::from(*d - b'0'),
                    },
                })
                .ok()
                .ok_or("memory")?,
            _ => return Err("a task is four digits".into()),
        }
    }
    Ok(list)
}

/// The answer in words: for a plan the cells of each robot, as row and column.
fn told(alloc: Global, answer: &Result<RawPlan, PlannerError>) -> Result<String, Fail> {
    let text = match answer {
        Ok(plan) => {
            let mut text = String::new(alloc);
            for robot in 0..plan.robots() {
                if robot > 0 {
                    write!(text, " /")?;
                }
                for cell in plan.cells(robot) {
                    write!(text, " {}{}", cell.row, cell.col)?;
                }
            }
            text
        }
        Err(PlannerError::Memory) => format!(in alloc; "memory")?,
        Err(PlannerError::NoPath { robot }) => format!(in alloc; "nopath {robot}")?,
        Err(PlannerError::BadTask { robot, why }) => format!(in alloc; "{why:?} {robot}")?,
    };
    Ok(text)
}

#[test]
fn plans_in_turn(rt: HostRuntime) -> Result<(), Fail> {
    let crossing = "@@.@@ ..... @@.@@";
    for (shows, map, tasks, horizon, want) in [
        (
            "the crossing",
            crossing,
            "1014 0222",
            10,
            " 10 11 12 13 14 / 02 12 22",
        ),
        ("a swap", "..", "0001 0100", 10, "nopath 1"),
        ("a rotation", ".. ..", "0001 0111 1110 1000", 10, "nopath 3"),
        (
            "waiting for another to pass",
            crossing,
            "1114 0222",
            10,
            " 11 12 13 14 / 02 02 12 22",
        ),
        ("the least of equal paths", ".. ..", "0011", 10, " 00 01 11"),
        ("nothing to do", "..", "0101", 1, " 01"),
        ("the goal is kept", ".....", "0002 0401", 10, "nopath 1"),
        (
            "out of the way and back",
            "..... @@.@@",
            "0004 1201",
            10,
            " 00 01 02 03 04 / 12 02 12 02 01",
        ),
        (
            "a goal that another passes",
            "..... @@.@@",
            "0004 1202",
            10,
            " 00 01 02 03 04 / 12 02 12 02",
        ),
        ("in time", "....", "0003", 3, " 00 01 02 03"),
        ("too late", "....", "0003", 2, "nopath 0"),
        (
            "a long way round",
            "........ @@@@@@@. ........",
            "0020",
            30,
            " 00 01 02 03 04 05 06 07 17 27 26 25 24 23 22 21 20",
        ),
        (
            "too long a way round",
            "........ @@@@@@@. ........",
            "0020",
            15,
            "nopath 0",
        ),
        ("no way", ".@.", "0002", 10, "nopath 0"),
        ("a blocked start", crossing, "1014 0014", 10, "Start 1"),
        ("a blocked goal", crossing, "1000", 10, "Goal 0"),
        ("a goal off the map", crossing, "1015", 10, "Goal 0"),
        ("one start", crossing, "1014 1012", 10, "SameStart 1"),
        ("one goal", crossing, "1014 1114", 10, "SameGoal 1"),
        ("one task", crossing, "1014 1014", 10, "SameStart 1"),
        (
            "tasks before paths",
            ".@.",
            "0002 0200 0000",
            10,
            "SameStart 2",
        ),
    ] {
        let grid = grid_of(rt.alloc(), map)?;
        let tasks = tasks_of(rt.alloc(), &grid, tasks)?;
        let count = tasks.as_slice().len();
        assert!(rt; count >= 1);
        assert!(rt; count <= 256);
        assert!(rt; horizon >= 1);
        assert!(rt; horizon <= 4096);
        let answer = plan_in_turn(rt.alloc(), &grid, &tasks, horizon);
        let found = told(rt.alloc(), &answer)?;
        assert_eq!(rt; found.as_str(), want, "{shows}");
    }
    Ok(())
}

#[test]
fn a_task_for_another_map(rt: HostRuntime) -> Result<(), Fail> {
    let grid = grid_of(rt.alloc(), "... ...")?;
    for (width, height, found) in [(3, 2, " 00"), (2, 3, "Size 0"), (3, 3, "Size 0")] {
        let here = Cell { row: 0, col: 0 };
        let task = Task {
            width,
            height,
            start: here,
            goal: here,
        };
        let tasks = TaskList::from_slice(rt.alloc(), &[task])
            .ok()
            .ok_or("memory")?;
        let count = tasks.as_slice().len();
        assert!(rt; count >= 1);
        assert!(rt; count <= 256);
        let answer = plan_in_turn(rt.alloc(), &grid, &tasks, 4);
        assert_eq!(rt; told(rt.alloc(), &answer)?.as_str(), found);
    }
    Ok(())
}

/// Numbers that look drawn.
#[derive(Drop)]
struct Numbers(u64);

impl Numbers {
    fn below(&mut self, end: u32) -> u32 {
        self.0 = self
            .0
            .wrapping_mul(6364136223846793005)
            .wrapping_add(1442695040888963407);
        ((self.0 >> 33) as u32).checked_rem(end).unwrap_or(0)
    }
}

/// Adds a robot with this path.
fn add(plan: &mut RawPlan, path: Vec<Cell>) -> Result<(), Fail>
    requires { All (λ path. 1 ≤ length path) plan.old }
    ensures { OnOk result (All (λ path. 1 ≤ length path) plan.new) }
{
    if path.is_empty() {
        return Err("an empty path".into());
    }
    plan.push_path(path).ok().ok_or("memory")?;
    Ok(())
}

/// The plan with one more robot.
fn joined(alloc: Global, fixed: &RawPlan, path: &[Cell]) -> Result<RawPlan, Fail>
    ensures { IfOk result HasRobots }
{
    let mut plan = RawPlan::new(alloc);
    for robot in 0..fixed.robots() {
        add(&mut plan, Vec::from_slice(alloc, fixed.cells(robot))?)?;
    }
    add(&mut plan, Vec::from_slice(alloc, path)?)?;
    if plan.robots() == 0 {
        return Err("no robot".into());
    }
    Ok(plan)
}

/// The path that a number stands for: a step a digit to base 5, the last digit for the last step. None where it leaves
/// the numbers.
fn path_of(alloc: Global, start: Cell, number: u32, steps: u32) -> Result<Option<Vec<Cell>>, Fail> {
    let mut cells = Vec::new(alloc);
    cells.push(start)?;
    let mut here = start;
    for step in 0..steps {
        let unit = 5u32.checked_pow(steps - 1 - step).ok_or("too many steps")?;
        let Some(next) = moved(here, number.checked_div(unit).unwrap_or(0) % 5) else {
            return Ok(None);
        };
        cells.push(next)?;
        here = next;
    }
    Ok(Some(cells))
}

/// The cell beside a cell, in the order of rows and then columns.
fn moved(Cell { row, col }: Cell, way: u32) -> Option<Cell> {
    let (row, col) = match way {
        0 => (row.checked_sub(1)?, col),
        1 => (row, col.checked_sub(1)?),
        2 => (row, col),
        3 => (row, col.checked_add(1)?),
        _ => (row.checked_add(1)?, col),
    };
    Some(Cell { row, col })
}

/// The first of all paths, by their ticks and then cell by cell, that is sound beside the fixed ones.
fn first_of_all(
    alloc: Global,
    grid: &Grid,
    fixed: &RawPlan,
    task: Task,
    horizon: u32,
) -> Result<Option<Vec<Cell>>, Fail> {
    for steps in 0..horizon.saturating_add(1) {
        let end = 5u32.checked_pow(steps).ok_or("too many steps")?;
        for number in 0..end {
            let Some(path) = path_of(alloc, task.start, number, steps)? else {
                continue;
            };
            if path.last() != Some(&task.goal) {
                continue;
            }
            if check(alloc, grid, &joined(alloc, fixed, &path)?).is_ok() {
                return Ok(Some(path));
            }
        }
    }
    Ok(None)
}

/// The plan of first paths in turn, in words.
fn told_by_trial(alloc: Global, grid: &Grid, tasks: &[Task], horizon: u32) -> Result<String, Fail> {
    let mut plan = RawPlan::new(alloc);
    for (robot, task) in tasks.iter().enumerate() {
        match first_of_all(alloc, grid, &plan, *task, horizon)? {
            Some(path) => plan.push_path(path).ok().ok_or("memory")?,
            None => return Ok(format!(in alloc; "nopath {robot}")?),
        }
    }
    told(alloc, &Ok(plan))
}

/// A map of so many rows and columns, one cell of six blocked.
fn drawn_grid(alloc: Global, numbers: &mut Numbers, height: u32, width: u32) -> Result<Grid, Fail> {
    let mut free = Vec::new(alloc);
    for _cell in 0..height.saturating_mul(width) {
        free.push(numbers.below(6) > 0)?;
    }
    Ok(Grid::new(height, width, free).ok_or("no map")?)
}

/// Tasks between drawn cells, without the bad ones.
fn drawn_tasks(
    alloc: Global,
    numbers: &mut Numbers,
    grid: &Grid,
    robots: u32,
) -> Result<TaskList, Fail> {
    let mut list = TaskList::new(alloc);
    for _robot in 0..robots {
        let task = Task {
            width: grid.width(),
            height: grid.height(),
            start: Cell {
                row: numbers.below(grid.height()),
                col: numbers.below(grid.width()),
            },
            goal: Cell {
                row: numbers.below(grid.height()),
                col: numbers.below(grid.width()),
            },
        };
        let shared = list.as_slice().iter().any(|other| other.start == task.start
            || other.goal == task.goal);
        if grid.is_free(task.start) && grid.is_free(task.goal) && !shared {
            list.push(task).ok().ok_or("memory")?;
        }
    }
    Ok(list)
}

#[test]
fn the_first_of_all_paths(rt: HostRuntime) -> Result<(), Fail> {
    let mut numbers = Numbers(7);
    let mut planned = 0u32;
    for draw in 0..120 {
        let (height, width) = if draw % 2 == 0 { (2, 3) } else { (3, 2) };
        let grid = drawn_grid(rt.alloc(), &mut numbers, height, width)?;
        let tasks = drawn_tasks(rt.alloc(), &mut numbers, &grid, 4)?;
        let count = tasks.as_slice().len();
        if count == 0 || count > 256 {
            continue;
        }
        let answer = plan_in_turn(rt.alloc(), &grid, &tasks, 4);
        if let Ok(plan) = &answer {
            let (first, others) = (plan.robots() == count, plan.robots() > 1);
            assert!(rt; first);
            planned = planned.saturating_add(u32::from(others));
        }
        let found = told(rt.alloc(), &answer)?;
        let want = told_by_trial(rt.alloc(), &grid, tasks.as_slice(), 4)?;
        assert_eq!(rt; found.as_str(), want.as_str(), "draw {draw}");
    }
    assert!(rt; planned > 20);
    Ok(())
}
