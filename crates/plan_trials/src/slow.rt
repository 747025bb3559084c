// The pairs of a plan by their definition: each visit of one robot with each visit of a higher one.
use fleet_base::{Cell, Pair, Side, Visit};
use std::alloc::Global;
use std::test::Fail;

/// A visit of a walk: its cell, and the tick at which it begins.
#[derive(Clone, Copy)]
struct Stop {
    visit: Visit,
    cell: Cell,
    tick: usize,
}

/// The pairs of these walks, each a cell for each tick.
pub fn slow_pairs(alloc: Global, walks: &[Vec<Cell>]) -> Result<Vec<Pair>, Fail> {
    let mut pairs = Vec::new(alloc);
    for (lower, first) in walks.iter().enumerate() {
        let first = stops_of(alloc, lower, first)?;
        for (higher, second) in walks.iter().enumerate() {
            if lower < higher {
                push_meetings(&mut pairs, &first, &stops_of(alloc, higher, second)?)?;
            }
        }
    }
    Ok(pairs)
}

fn push_meetings(pairs: &mut Vec<Pair>, first: &[Stop], second: &[Stop]) -> Result<(), Fail> {
    for lower in first {
        for higher in second {
            if lower.cell == higher.cell {
                pairs.push(meeting(lower, higher))?;
            }
        }
    }
    Ok(())
}

fn meeting(lower: &Stop, higher: &Stop) -> Pair {
    let first = if lower.tick < higher.tick {
        Side::Lower
    } else {
        Side::Higher
    };
    Pair {
        lower: lower.visit,
        higher: higher.visit,
        first,
    }
}

/// The visits of a walk.
fn stops_of(alloc: Global, robot: usize, walk: &[Cell]) -> Result<Vec<Stop>, Fail> {
    let robot = u32::try_from(robot).map_err(|_| "few robots")?;
    let mut stops: Vec<Stop> = Vec::new(alloc);
    for (tick, cell) in walk.iter().enumerate() {
        if let Some(index) = next_index(&stops, *cell) {
            let visit = Visit { robot, index };
            stops.push(Stop {
                visit,
                cell: *cell,
                tick,
            })?;
        }
    }
    Ok(stops)
}

/// The number of the visit that begins if the robot is now in the cell; none if it stays.
fn next_index(stops: &[Stop], cell: Cell) -> Option<u32> {
    match stops.last() {
        Some(stop) if stop.cell == cell => None,
        Some(stop) => Some(stop.visit.index.saturating_add(1)),
        None => Some(0),
    }
}
