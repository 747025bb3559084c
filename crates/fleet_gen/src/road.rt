ghost use Rattle.std.specs.Prelude.{◌≡◌, ◌≤◌, IfOk};
ghost use Rattle.fleet_gen.specs.Roads.{IsRoad, cell_after, is_on_road, moves_of, path_of, toward};
ghost use Rattle.fleet_base.specs.Limits.{tick_limit};

use crate::vectors::append;
use fleet_base::{Cell, Memory};
use std::alloc::Global;

/// The last column of the map, in which each road ends.
const LAST_COLUMN: u32 = 31;

/// The road of a robot: along its first row from column 0 to a column, along that column to the row of its goal, and
/// along that row to the last column.
#[derive(Clone, Copy, Debug, PartialEq, Eq)]
pub struct Road {
    pub row: u32,
    pub column: u32,
    pub goal: u32,
}

impl Road {
    /// How many moves the road has.
    pub fn moves(self) -> u32
        requires { IsRoad self }
        ensures { result ≡ moves_of self }
    {
        LAST_COLUMN + self.row.abs_diff(self.goal)
    }

    /// The cell after so many moves; at the end of the road it stays the same.
    pub fn cell(self, moved: u32) -> Cell
        requires road { IsRoad self }
        requires moved { moved ≤ tick_limit }
        ensures { result ≡ cell_after self moved }
    {
        let rows = self.row.abs_diff(self.goal);
        Cell {
            row: toward(self.row, self.goal, moved.saturating_sub(self.column)),
            col: toward(
                moved.min(self.column),
                LAST_COLUMN,
                moved.saturating_sub(self.column + rows),
            ),
        }
    }

    /// Whether the road goes through a cell.
    pub fn passes(self, at: Cell) -> bool
        ensures { result ≡ is_on_road self at }
    {
        let first = at.row == self.row && at.col <= self.column;
        let rows = self.row.min(self.goal)..=self.row.max(self.goal);
        let across = at.col == self.column && rows.contains(&at.row);
        let last = at.row == self.goal && (self.column..=LAST_COLUMN).contains(&at.col);
        first || across || last
    }

    /// The cells tick by tick of a robot that waits so long at the first cell and then goes a cell a tick.
    pub(crate) fn path(self, alloc: Global, wait: u32) -> Result<Vec<Cell>, Memory>
        requires road { IsRoad self }
        requires wait { wait ≤ 1984 }
        ensures { IfOk result (λ path. path.items ≡ path_of self wait) }
    {
        let mut path = Vec::new(alloc);
        for tick in 0..wait + self.moves() + 1 {
            append(&mut path, self.cell(tick.saturating_sub(wait)))?;
        }
        Ok(path)
    }
}

/// As many steps from one number toward another, and not beyond it.
fn toward(from: u32, to: u32, steps: u32) -> u32
    requires from { from ≤ tick_limit }
    requires steps { steps ≤ tick_limit }
    ensures { result ≡ toward from to steps }
{
    from.saturating_sub(steps).max(to.min(from + steps))
}
