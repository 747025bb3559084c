// Maps and tasks that look drawn.
use fleet_base::{Cell, Grid};
use map_text::{Task, TaskList};
use std::alloc::Global;

/// Numbers that look drawn.
#[derive(Drop)]
pub struct Numbers(pub u64);

impl Numbers {
    pub fn below(&mut self, end: u32) -> u32 {
        self.0 = self
            .0
            .wrapping_mul(6364136223846793005)
            .wrapping_add(1442695040888963407);
        ((self.0 >> 33) as u32).checked_rem(end).unwrap_or(0)
    }
}

/// A map of so many rows and columns, so many cells of a hundred blocked; none if there is no such map, or memory is
/// wanting.
pub fn grid(alloc: Global, numbers: &mut Numbers, side: u32, blocked: u32) -> Option<Grid> {
    let mut free = Vec::new(alloc);
    for _cell in 0..side.saturating_mul(side) {
        free.push(numbers.below(100) >= blocked).ok()?;
    }
    Grid::new(side, side, free)
}

/// Tasks between free cells, no two with one start or one goal. Fewer than were asked for where the map is too full.
pub fn tasks(alloc: Global, numbers: &mut Numbers, grid: &Grid, robots: u32) -> Option<TaskList> {
    let mut list = TaskList::new(alloc);
    for _draw in 0..robots.saturating_mul(64) {
        if list.as_slice().len() >= robots as usize {
            return Some(list);
        }
        let task = Task {
            width: grid.width(),
            height: grid.height(),
            start: cell(numbers, grid),
            goal: cell(numbers, grid),
        };
        let shared = list.as_slice().iter().any(|other| other.start == task.start
            || other.goal == task.goal);
        if grid.is_free(task.start) && grid.is_free(task.goal) && !shared {
            list.push(task).ok()?;
        }
    }
    Some(list)
}

fn cell(numbers: &mut Numbers, grid: &Grid) -> Cell {
    Cell {
        row: numbers.below(grid.height()),
        col: numbers.below(grid.width()),
    }
}
