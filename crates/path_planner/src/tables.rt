ghost use Rattle.std.specs.Prelude.{ℕ, ◌≡◌, ◌≢◌, ◌<◌, ◌≤◌, true, false, length, IfOk, IsTrue, Contains};
ghost use Rattle.fleet_base.specs.declared.geometry.Cell.{Cell};
ghost use Rattle.fleet_base.specs.Grid.{is_free};
ghost use Rattle.path_planner.specs.Tables.{value_at, HasPlace, SameSides, CoverGrid, Covers, TellsPlaces};

use fleet_base::{Cell, Grid, Items, Memory};
use std::alloc::Global;

/// A number for each cell, by row and column. What it has for a cell is a hint, which whoever reads it tests.
pub(crate) type CellTable = Items<Items<usize>>;

/// The tables of a grid that all searches on it share.
#[derive(Drop)]
pub(crate) struct Tables {
    /// By cell, the fixed robot that is in it at the next tick.
    pub(crate) traffic: CellTable,
    /// By cell, its place in a layer.
    pub(crate) places: CellTable,
}

/// The tables of a grid, in which nothing is told yet.
pub(crate) fn new_tables(alloc: Global, grid: &Grid) -> Result<Tables, Memory>
    ensures { IfOk result (CoverGrid grid.now) }
{
    Ok(Tables {
        traffic: new_table(alloc, grid)?,
        places: new_table(alloc, grid)?,
    })
}

/// A table with a place for each cell of a grid.
fn new_table(alloc: Global, grid: &Grid) -> Result<CellTable, Memory>
    ensures { IfOk result (Covers grid.now) }
{
    let mut table = CellTable::new(alloc);
    for _row in 0..grid.height() {
        table.push(zeros(alloc, grid.width())?)?;
    }
    Ok(table)
}

/// So many zeros.
fn zeros(alloc: Global, count: u32) -> Result<Items<usize>, Memory>
    ensures { IfOk result (λ row. length row ≡ count) }
{
    let mut row = Items::new(alloc);
    for _col in 0..count {
        row.push(0)?;
    }
    Ok(row)
}

/// The number of a cell, and 0 where the table has no place for it.
pub(crate) fn value_of(table: &CellTable, at: Cell) -> usize
    ensures { result ≡ value_at table.now at }
{
    let row = table.row(at.row as usize);
    let col = at.col as usize;
    if col < row.len() { row[col] } else { 0 }
}

/// Writes the number of a cell.
pub(crate) fn put(table: &mut CellTable, at: Cell, value: usize)
    requires { HasPlace table.old at }
    ensures sides { SameSides table.old table.new }
    ensures here { value_at table.new at ≡ value }
    ensures others { (c : Cell) → c ≢ at → value_at table.new c ≡ value_at table.old c }
{
    table.set_in(at.row as usize, at.col as usize, value);
}

/// Whether a cell is one of these, whose places the table tells.
pub(crate) fn is_listed(cells: &[Cell], places: &CellTable, at: Cell) -> bool
    requires { TellsPlaces cells.now places.now }
    ensures yes { result ≡ true → Contains cells.now at }
    ensures no { result ≡ false → ¬ Contains cells.now at }
{
    let place = value_of(places, at);
    if place >= cells.len() {
        return false;
    }
    cells[place] == at
}

/// Writes the places of cells, all of them free.
pub(crate) fn put_places(grid: &Grid, cells: &[Cell], places: &mut CellTable)
    requires free { (c : Cell) → Contains cells.now c → IsTrue (is_free grid.now c) }
    requires covers { Covers grid.now places.old }
    ensures covers { Covers grid.now places.new }
    ensures places { TellsPlaces cells.now places.new }
{
    for (place, cell) in cells.iter().enumerate() {
        put(places, *cell, place);
    }
}
