ghost use Rattle.std.specs.Prelude.{ℕ, ◌≡◌, ◌≤◌, ◌↔◌, ◌-◌, max, IfOk, OnOk, length, ◌+◌};
ghost use Rattle.fleet_base.specs.Plan.{IsSound};
ghost use Rattle.fleet_base.specs.Limits.{robot_limit, tick_limit};
ghost use Rattle.path_planner.specs.Tables.{CoverGrid};
ghost use Rattle.path_planner.specs.Search.{AreInTime, IsBestPath, IsClearTick, IsLeaveTick};

use crate::backward::{keep_ways, least_path};
use crate::forward::first_layers;
use crate::tables::Tables;
use fleet_base::{Cell, Grid, Memory, RawPlan};
use map_text::Task;
use std::alloc::Global;

/// The best path for a task beside paths that are fixed, or none where there is no candidate.
pub(crate) fn best_path(
    alloc: Global,
    grid: &Grid,
    fixed: &RawPlan,
    tables: &mut Tables,
    task: Task,
    horizon: u32,
) -> Result<Option<Vec<Cell>>, Memory>
    requires robots { length fixed.now ≤ robot_limit }
    requires paths { AreInTime horizon fixed.now }
    requires sound { IsSound grid.now fixed.now }
    requires horizon { horizon ≤ tick_limit }
    requires tables { CoverGrid grid.now tables.old }
    ensures path { IfOk result (IsBestPath grid.now horizon fixed.now task) }
    ensures tables { CoverGrid grid.now tables.new }
{
    let Some(from) = clear_tick(fixed, task.goal) else {
        return Ok(None);
    };
    let found = first_layers(alloc, grid, fixed, tables, task, from, horizon)?;
    let Some(mut layers) = found else {
        return Ok(None);
    };
    keep_ways(alloc, grid, fixed, tables, task, &mut layers)?;
    let path = least_path(alloc, grid, fixed, &mut tables.traffic, task, &layers)?;
    Ok(Some(path))
}

/// The first tick from which on no fixed robot is in the cell.
fn clear_tick(fixed: &RawPlan, at: Cell) -> Option<u32>
    requires paths { AreInTime tick_limit fixed.now }
    ensures { IsClearTick fixed.now at result }
{
    let mut from = 0;
    for robot in 0..fixed.robots() {
        match left_at(fixed.cells(robot), at) {
            Some(tick) => from = later(from, tick),
            None => return None,
        }
    }
    Some(from)
}

/// The later of two ticks.
fn later(a: u32, b: u32) -> u32
    ensures { result ≡ max a b }
{
    if a < b { b } else { a }
}

/// The first tick from which on a path is not in the cell, if it does not end there.
fn left_at(path: &[Cell], at: Cell) -> Option<u32>
    requires cells { 1 ≤ length path.now }
    requires ticks { length path.now ≤ tick_limit + 1 }
    ensures { IsLeaveTick path.now at result }
{
    if path[path.len() - 1] == at {
        return None;
    }
    let mut from = 0;
    for tick in 0..path.len() {
        if path[tick] == at {
            from = tick as u32 + 1;
        }
    }
    Some(from)
}
