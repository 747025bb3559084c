// Two streams of robots that cross.
ghost use Rattle.std.specs.Prelude.{IfSome};
ghost use Rattle.fleet_base.specs.Plan.{HasRobots};

use fleet_base::{RawPlan, SoundPlan};
use map_text::read_map;
use plan_check::check;
use plan_text::read_plan;
use std::alloc::Global;
use std::fmt::{self, Write};

/// How many cells a robot is behind the one in front of it, so that another one can cross between them.
const GAP: u64 = 4;

/// The plan of two streams, each of so many robots that make so many moves: one goes along a row, the other along a column,
/// and the robots of both take turns at the cell that these share. None if there is no such plan, or memory is wanting.
pub fn crossing(alloc: Global, robots: u64, steps: u64) -> Option<SoundPlan> {
    let first = robots.saturating_sub(1).saturating_mul(GAP);
    let side = first.saturating_add(steps).saturating_add(GAP).min(4096);
    let map = map_text(alloc, side).ok()?;
    let mut text = String::new(alloc);
    let shared = first.saturating_add(steps) / 2;
    write_stream(&mut text, 0, robots, steps, Line::Row(shared)).ok()?;
    write_stream(&mut text, robots, robots, steps, Line::Column(shared)).ok()?;
    if map.len() > 1 << 25 {
        return None;
    }
    let grid = read_map(alloc, map.as_bytes()).ok()?;
    let raw = raw_of(alloc, text.as_bytes())?;
    check(alloc, &grid, &raw).ok()
}

fn raw_of(alloc: Global, text: &[u8]) -> Option<RawPlan>
    ensures { IfSome result HasRobots }
{
    if text.len() > 1 << 25 {
        return None;
    }
    match read_plan(alloc, text) {
        Ok(raw) => Some(raw),
        Err(_) => None,
    }
}

/// Where a stream goes.
#[derive(Clone, Copy)]
enum Line {
    Row(u64),
    Column(u64),
}

/// The text of a square map of free cells.
fn map_text(alloc: Global, side: u64) -> Result<String, fmt::Error> {
    let mut text = String::new(alloc);
    write!(text, "type octile\nheight {side}\nwidth {side}\nmap\n")?;
    for _ in 0..side {
        write_row(&mut text, side)?;
    }
    Ok(text)
}

/// A row of free cells.
fn write_row(text: &mut String, cells: u64) -> fmt::Result {
    for _ in 0..cells {
        text.write_str(".")?;
    }
    text.write_str("\n")
}

/// The lines of a stream's robots, the one in front first, with their numbers from this one on. All move at each tick.
fn write_stream(text: &mut String, from: u64, robots: u64, steps: u64, line: Line) -> fmt::Result {
    for robot in 0..robots {
        let start = (robots - 1 - robot).saturating_mul(GAP);
        let number = from.saturating_add(robot);
        write!(text, "Agent {number}: ")?;
        write_walk(text, start, steps, line)?;
        text.write_str("\n")?;
    }
    Ok(())
}

/// The cells of a robot. A stream along a column is half a gap ahead, so that its robots cross between those of the other.
fn write_walk(text: &mut String, start: u64, steps: u64, line: Line) -> fmt::Result {
    for step in 0..=steps {
        let at = start.saturating_add(step);
        match line {
            Line::Row(row) => write!(text, "({row},{at})->")?,
            Line::Column(column) => write!(text, "({},{column})->", at.saturating_add(GAP / 2))?,
        }
    }
    Ok(())
}
