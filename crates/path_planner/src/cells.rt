ghost use Rattle.std.specs.Prelude.{ℕ, ◌≡◌, ◌≤◌, ◌↔◌, true, false, length, IsTrue, All, Contains};
ghost use Rattle.fleet_base.specs.declared.geometry.Cell.{Cell};
ghost use Rattle.fleet_base.specs.Grid.{is_free, distance};
ghost use Rattle.path_planner.specs.Planning.{IsBefore};

use fleet_base::{Cell, Grid};

/// The free cell itself and what is beside it on the grid. At an edge the cell stands for what would be past it.
pub(crate) fn around(grid: &Grid, at: Cell) -> [Cell; 5]
    requires { IsTrue (is_free grid.now at) }
    ensures count { length result ≡ 5 }
    ensures near { All (λ to. distance at to ≤ 1) result }
    ensures all { (to : Cell) → IsTrue (is_free grid.now to) → distance at to ≤ 1 → Contains result to }
{
    let Cell { row, col } = at;
    let last_row = grid.height() - 1;
    let last_col = grid.width() - 1;
    [
        Cell {
            row: row.saturating_sub(1),
            col,
        },
        Cell {
            row,
            col: col.saturating_sub(1),
        },
        at,
        Cell {
            row,
            col: (col + 1).min(last_col),
        },
        Cell {
            row: (row + 1).min(last_row),
            col,
        },
    ]
}

/// How many steps two cells are apart.
pub(crate) fn steps_apart(a: Cell, b: Cell) -> u64
    ensures { result ≡ distance a b }
{
    u64::from(a.row.abs_diff(b.row)) + u64::from(a.col.abs_diff(b.col))
}

/// Whether a cell is one of these.
pub(crate) fn is_in(cells: &[Cell], at: Cell) -> bool
    ensures yes { result ≡ true → Contains cells.now at }
    ensures no { result ≡ false → ¬ Contains cells.now at }
{
    cells.contains(&at)
}

/// Whether a cell comes before another: by row, then by column.
pub(crate) fn is_before(a: Cell, b: Cell) -> bool
    ensures yes { result ≡ true → IsBefore a b }
    ensures no { result ≡ false → ¬ IsBefore a b }
{
    a.row < b.row || a.row == b.row && a.col < b.col
}
