ghost use Rattle.std.specs.Prelude.{ℕ, ◌≡◌, ◌-◌, ◌+◌, ◌<◌, ◌≤◌, [], ◌∷◌, ◌++◌, true, false, MatchOption, IfOk, OnOk, length, IsTrue, Contains};
ghost use Rattle.fleet_base.specs.declared.geometry.Cell.{Cell};
ghost use Rattle.fleet_base.specs.Grid.{is_free};
ghost use Rattle.fleet_base.specs.Plan.{IsSound};
ghost use Rattle.fleet_base.specs.Limits.{tick_limit};
ghost use Rattle.plan_steps.specs.Steps.{IsClear, MayStep};
ghost use Rattle.path_planner.specs.Layers.{LeadsTo, IsReached};
ghost use Rattle.path_planner.specs.Tables.{CoverGrid, Covers, TellsPlaces, TellsRobots};
ghost use Rattle.path_planner.specs.Search.{AreInTime, AreStood, AreWays, HasWays, IsKept, IsLeastInto, IsLeastPath, IsLesser, LeadsInto};

use crate::cells::{around, is_before, is_in};
use crate::forward::Layers;
use crate::steps::{may_step, turn_to};
use crate::tables::{CellTable, Tables, is_listed, put_places};
use fleet_base::{Cell, Grid, Items, Memory, RawPlan};
use map_text::Task;
use std::alloc::Global;

/// Leaves in each layer the cells from which the goal is reached at the last tick.
pub(crate) fn keep_ways(
    alloc: Global,
    grid: &Grid,
    fixed: &RawPlan,
    tables: &mut Tables,
    task: Task,
    layers: &mut Layers,
) -> Result<(), Memory>
    requires paths { AreInTime tick_limit fixed.now }
    requires sound { IsSound grid.now fixed.now }
    requires ticks { length layers.old ≤ tick_limit + 1 }
    requires ways { HasWays grid.now fixed.now task layers.old }
    requires goal { IsReached grid.now fixed.now task.start (length layers.old - 1) task.goal }
    requires tables { CoverGrid grid.now tables.old }
    ensures tables { CoverGrid grid.now tables.new }
    ensures ticks { OnOk result (length layers.new ≡ length layers.old) }
    ensures ways { OnOk result (AreWays grid.now fixed.now task layers.new) }
{
    let last = layers.as_slice().len() - 1;
    layers.set(last, Items::from_slice(alloc, &[task.goal])?);
    for tick in (0..last).rev() {
        let kept = keep_layer(
            alloc,
            grid,
            fixed,
            tables,
            tick,
            layers.row(tick),
            layers.row(tick + 1),
        )?;
        layers.set(tick, kept);
    }
    Ok(())
}

/// The cells of a layer from which a step leads into the next one.
fn keep_layer(
    alloc: Global,
    grid: &Grid,
    fixed: &RawPlan,
    tables: &mut Tables,
    tick: usize,
    layer: &[Cell],
    next: &[Cell],
) -> Result<Items<Cell>, Memory>
    requires paths { AreInTime tick_limit fixed.now }
    requires sound { IsSound grid.now fixed.now }
    requires tick { tick ≤ tick_limit }
    requires stood { AreStood grid.now fixed.now tick layer.now }
    requires next { (c : Cell) → Contains next.now c → IsTrue (is_free grid.now c) }
    requires tables { CoverGrid grid.now tables.old }
    ensures kept { IfOk result (IsKept grid.now fixed.now tick layer.now next.now) }
    ensures tables { CoverGrid grid.now tables.new }
{
    turn_to(grid, fixed, tick, &mut tables.traffic);
    put_places(grid, next, &mut tables.places);
    let mut kept = Items::new(alloc);
    for from in layer {
        if leads_into(
            grid,
            fixed,
            &tables.traffic,
            tick,
            *from,
            next,
            &tables.places,
        ) {
            kept.push(*from)?;
        }
    }
    Ok(kept)
}

/// Whether a step leads from a cell into one of the next layer.
fn leads_into(
    grid: &Grid,
    fixed: &RawPlan,
    traffic: &CellTable,
    tick: usize,
    from: Cell,
    next: &[Cell],
    places: &CellTable,
) -> bool
    requires paths { AreInTime tick_limit fixed.now }
    requires sound { IsSound grid.now fixed.now }
    requires tick { tick ≤ tick_limit }
    requires free { IsTrue (is_free grid.now from) }
    requires clear { IsClear fixed.now tick from }
    requires robots { TellsRobots fixed.now (tick + 1) traffic.now }
    requires places { TellsPlaces next.now places.now }
    ensures yes { result ≡ true → LeadsInto grid.now fixed.now tick from next.now }
    ensures no { result ≡ false → ¬ LeadsInto grid.now fixed.now tick from next.now }
{
    for to in around(grid, from) {
        if is_listed(next, places, to) && may_step(grid, fixed, traffic, tick, from, to) {
            return true;
        }
    }
    false
}

/// The path that takes at each tick the least cell of the next layer into which it may step.
pub(crate) fn least_path(
    alloc: Global,
    grid: &Grid,
    fixed: &RawPlan,
    traffic: &mut CellTable,
    task: Task,
    layers: &Layers,
) -> Result<Vec<Cell>, Memory>
    requires paths { AreInTime tick_limit fixed.now }
    requires sound { IsSound grid.now fixed.now }
    requires ticks { length layers.now ≤ tick_limit + 1 }
    requires ways { AreWays grid.now fixed.now task layers.now }
    requires start { LeadsTo grid.now fixed.now task.goal (length layers.now - 1) 0 task.start }
    requires stood { IsReached grid.now fixed.now task.start 0 task.start }
    requires traffic { Covers grid.now traffic.old }
    ensures path { IfOk result (λ path. IsLeastPath grid.now fixed.now task (length layers.now) path.items) }
    ensures traffic { Covers grid.now traffic.new }
{
    let mut path = Vec::new(alloc);
    push_cell(&mut path, task.start)?;
    let mut here = task.start;
    for tick in 0..layers.as_slice().len() - 1 {
        turn_to(grid, fixed, tick, traffic);
        here = least_step(grid, fixed, traffic, tick, here, layers.row(tick + 1));
        push_cell(&mut path, here)?;
    }
    Ok(path)
}

/// Adds a cell to a path.
fn push_cell(path: &mut Vec<Cell>, cell: Cell) -> Result<(), Memory>
    ensures { OnOk result (path.new.items ≡ path.old.items ++ cell ∷ []) }
{
    Ok(path.push(cell)?)
}

/// The least cell of the next layer into which a step leads from a cell.
fn least_step(
    grid: &Grid,
    fixed: &RawPlan,
    traffic: &CellTable,
    tick: usize,
    from: Cell,
    next: &[Cell],
) -> Cell
    requires paths { AreInTime tick_limit fixed.now }
    requires sound { IsSound grid.now fixed.now }
    requires tick { tick ≤ tick_limit }
    requires free { IsTrue (is_free grid.now from) }
    requires clear { IsClear fixed.now tick from }
    requires leads { LeadsInto grid.now fixed.now tick from next.now }
    requires robots { TellsRobots fixed.now (tick + 1) traffic.now }
    ensures { IsLeastInto grid.now fixed.now tick from next.now result }
{
    let mut least = None;
    for to in around(grid, from) {
        if is_in(next, to) && may_step(grid, fixed, traffic, tick, from, to) {
            least = Some(lesser(least, to));
        }
    }
    least.unwrap()
}

/// The lesser of two cells, of which the first may be missing.
fn lesser(least: Option<Cell>, other: Cell) -> Cell
    ensures { MatchOption least (result ≡ other) (λ cell. IsLesser cell other result) }
{
    match least {
        Some(cell) if !is_before(other, cell) => cell,
        _ => other,
    }
}
