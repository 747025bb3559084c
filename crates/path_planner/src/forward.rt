ghost use Rattle.std.specs.Prelude.{ℕ, ◌≡◌, ◌+◌, ◌≤◌, ◌↔◌, true, false, IfOk, OnOk, length, IsTrue, Contains};
ghost use Rattle.fleet_base.specs.Grid.{is_free};
ghost use Rattle.fleet_base.specs.Plan.{IsSound};
ghost use Rattle.fleet_base.specs.Limits.{tick_limit};
ghost use Rattle.plan_steps.specs.Steps.{IsClear};
ghost use Rattle.path_planner.specs.Layers.{IsClearFrom};
ghost use Rattle.path_planner.specs.Tables.{CoverGrid, Covers, TellsPlaces, TellsRobots};
ghost use Rattle.path_planner.specs.Search.{AreInTime, AreLayers, AreStood, IsFirstLayer, IsInReach, IsNextLayer, StepsOut};

use crate::cells::{around, is_in, steps_apart};
use crate::steps::{is_clear, may_step, turn_to};
use crate::tables::{CellTable, Tables, is_listed, put};
use fleet_base::{Cell, Grid, Items, Memory, RawPlan};
use map_text::Task;
use std::alloc::Global;

/// Cells by ticks.
pub(crate) type Layers = Items<Items<Cell>>;

/// The goal of a robot, and the last tick at which it may arrive.
#[derive(Clone, Copy)]
pub(crate) struct Aim {
    pub(crate) goal: Cell,
    pub(crate) last: u32,
}

/// The layers of cells that are reached tick by tick, up to the first tick at which the robot may arrive, or none where it
/// may not by the horizon. They are sought for a last tick that grows, since an early one leaves few cells in reach of the
/// goal. What is added to the least one more than triples each time, up to half of the way to the horizon; then the horizon
/// itself is tried. So the tries are few, and each takes at most the cells times the ticks until the robot arrives.
pub(crate) fn first_layers(
    alloc: Global,
    grid: &Grid,
    fixed: &RawPlan,
    tables: &mut Tables,
    task: Task,
    from: u32,
    horizon: u32,
) -> Result<Option<Layers>, Memory>
    requires paths { AreInTime tick_limit fixed.now }
    requires sound { IsSound grid.now fixed.now }
    requires horizon { horizon ≤ tick_limit }
    requires from { (t : ℕ) → IsClearFrom fixed.now t task.goal ↔ (from ≤ t) }
    requires tables { CoverGrid grid.now tables.old }
    ensures layers { IfOk result (AreLayers grid.now fixed.now task horizon) }
    ensures tables { CoverGrid grid.now tables.new }
{
    let near = least_last(task, from, horizon);
    let mut slack = 0;
    while near + 2 * slack < horizon {
        let last = near + slack;
        if let Some(layers) = layers_to_arrival(alloc, grid, fixed, tables, task, from, last)? {
            return Ok(Some(layers));
        }
        slack = 3 * slack + near / 16 + 8;
    }
    layers_to_arrival(alloc, grid, fixed, tables, task, from, horizon)
}

/// The least last tick for which the goal may be in reach of the start, and free for good; the horizon, where it is later.
fn least_last(task: Task, from: u32, horizon: u32) -> u32
    ensures { result ≤ horizon }
{
    let apart = steps_apart(task.start, task.goal).min(u64::from(horizon));
    (apart as u32).max(from).min(horizon)
}

/// The layers of cells that are reached tick by tick, up to the first tick at which the robot may arrive. Cells from
/// which the goal cannot be reached by the last tick may be missing.
fn layers_to_arrival(
    alloc: Global,
    grid: &Grid,
    fixed: &RawPlan,
    tables: &mut Tables,
    task: Task,
    from: u32,
    last: u32,
) -> Result<Option<Layers>, Memory>
    requires paths { AreInTime tick_limit fixed.now }
    requires sound { IsSound grid.now fixed.now }
    requires last { last ≤ tick_limit }
    requires from { (t : ℕ) → IsClearFrom fixed.now t task.goal ↔ (from ≤ t) }
    requires tables { CoverGrid grid.now tables.old }
    ensures layers { IfOk result (AreLayers grid.now fixed.now task last) }
    ensures tables { CoverGrid grid.now tables.new }
{
    let aim = Aim {
        goal: task.goal,
        last,
    };
    let mut layers = Layers::new(alloc);
    layers.push(first_layer(alloc, grid, fixed, task.start)?)?;
    for tick in 0..last + 1 {
        let layer = layers.row(tick as usize);
        if tick >= from && is_in(layer, task.goal) {
            return Ok(Some(layers));
        }
        let next = next_layer(alloc, grid, fixed, tables, tick as usize, aim, layer)?;
        layers.push(next)?;
    }
    Ok(None)
}

/// The start, if it is free and no fixed robot is there.
fn first_layer(
    alloc: Global,
    grid: &Grid,
    fixed: &RawPlan,
    start: Cell,
) -> Result<Items<Cell>, Memory>
    requires paths { AreInTime tick_limit fixed.now }
    ensures { IfOk result (IsFirstLayer grid.now fixed.now start) }
{
    let mut layer = Items::new(alloc);
    if grid.is_free(start) && is_clear(fixed, 0, start) {
        layer.push(start)?;
    }
    Ok(layer)
}

/// The cells into which a step leads from one of a layer, and from which the goal is in reach.
fn next_layer(
    alloc: Global,
    grid: &Grid,
    fixed: &RawPlan,
    tables: &mut Tables,
    tick: usize,
    aim: Aim,
    layer: &[Cell],
) -> Result<Items<Cell>, Memory>
    requires paths { AreInTime tick_limit fixed.now }
    requires sound { IsSound grid.now fixed.now }
    requires tick { tick ≤ tick_limit }
    requires stood { AreStood grid.now fixed.now tick layer.now }
    requires tables { CoverGrid grid.now tables.old }
    ensures layer { IfOk result (IsNextLayer grid.now fixed.now tick aim layer.now) }
    ensures tables { CoverGrid grid.now tables.new }
{
    turn_to(grid, fixed, tick, &mut tables.traffic);
    let mut next = Items::new(alloc);
    for from in layer {
        step_out(
            grid,
            fixed,
            &tables.traffic,
            tick,
            *from,
            aim,
            &mut tables.places,
            &mut next,
        )?;
    }
    Ok(next)
}

/// Adds the cells into which a step leads from a cell, and from which the goal is in reach, where they are missing.
fn step_out(
    grid: &Grid,
    fixed: &RawPlan,
    traffic: &CellTable,
    tick: usize,
    from: Cell,
    aim: Aim,
    places: &mut CellTable,
    next: &mut Items<Cell>,
) -> Result<(), Memory>
    requires paths { AreInTime tick_limit fixed.now }
    requires sound { IsSound grid.now fixed.now }
    requires tick { tick ≤ tick_limit }
    requires free { IsTrue (is_free grid.now from) }
    requires clear { IsClear fixed.now tick from }
    requires robots { TellsRobots fixed.now (tick + 1) traffic.now }
    requires covers { Covers grid.now places.old }
    requires places { TellsPlaces next.old places.old }
    ensures steps { OnOk result (StepsOut grid.now fixed.now tick from aim next.old next.new) }
    ensures covers { Covers grid.now places.new }
    ensures places { OnOk result (TellsPlaces next.new places.new) }
{
    for to in around(grid, from) {
        if is_in_reach(to, tick + 1, aim)
            && !is_listed(next.as_slice(), places, to)
            && may_step(grid, fixed, traffic, tick, from, to)
        {
            put(places, to, next.as_slice().len());
            next.push(to)?;
        }
    }
    Ok(())
}

/// Whether the goal is near enough to be reached in time, were nothing in the way.
fn is_in_reach(at: Cell, tick: usize, aim: Aim) -> bool
    requires { tick ≤ tick_limit + 1 }
    ensures yes { result ≡ true → IsInReach aim tick at }
    ensures no { result ≡ false → ¬ IsInReach aim tick at }
{
    tick as u64 + steps_apart(at, aim.goal) <= u64::from(aim.last)
}
