// Plans in turn, again and again for the same tasks.
use crate::draws::{Numbers, grid, tasks};
use fleet_base::{Grid, RawPlan};
use map_text::TaskList;
use path_planner::{PlannerError, plan_in_turn};
use std::alloc::Global;

/// What is drawn: so many tasks, on a map of so many rows and columns, with so many cells of a hundred blocked.
#[derive(Clone, Copy)]
pub struct Draw {
    pub robots: u32,
    pub side: u32,
    pub blocked: u32,
    pub seed: u32,
}

/// What became of the last plan.
#[derive(Clone, Copy)]
pub enum Outcome {
    /// The last tick of all paths, and their ticks added up.
    Planned { last: u64, ticks: u64 },
    /// The first robot without a path.
    NoPath { robot: u32 },
    /// No plan was asked for.
    NotAsked,
}

/// Plans so many times; none if there is no such map, or memory is wanting.
pub fn planned(alloc: Global, draw: Draw, horizon: u32, plans: u32) -> Option<Outcome> {
    let mut numbers = Numbers(u64::from(draw.seed));
    let grid = grid(alloc, &mut numbers, draw.side, draw.blocked)?;
    let tasks = tasks(alloc, &mut numbers, &grid, draw.robots)?;
    let mut outcome = Outcome::NotAsked;
    for _plan in 0..plans {
        outcome = plan_once(alloc, &grid, &tasks, horizon)?;
    }
    Some(outcome)
}

fn plan_once(alloc: Global, grid: &Grid, tasks: &TaskList, horizon: u32) -> Option<Outcome> {
    let count = tasks.as_slice().len();
    if count == 0 || count > 256 || horizon == 0 || horizon > 4096 {
        return None;
    }
    match plan_in_turn(alloc, grid, tasks, horizon) {
        Ok(plan) => Some(summed(&plan)),
        Err(PlannerError::NoPath { robot }) => Some(Outcome::NoPath { robot }),
        Err(_) => None,
    }
}

fn summed(plan: &RawPlan) -> Outcome {
    let (mut last, mut ticks) = (0u64, 0u64);
    for robot in 0..plan.robots() {
        let arrival = (plan.cells(robot).len() as u64).saturating_sub(1);
        ticks = ticks.saturating_add(arrival);
        if arrival > last {
            last = arrival;
        }
    }
    Outcome::Planned { last, ticks }
}
