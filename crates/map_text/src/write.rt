// The canonical text of a map.
ghost use Rattle.std.specs.Prelude.{◌≡◌, ◌∷◌, [], ◌++◌, IfOk, OnOk};
ghost use Rattle.map_text.specs.MapText.{row_text, map_text_of};

use fleet_base::{Cell, Grid, Memory, Text, push_bytes, push_number};
use std::alloc::Global;

/// Writes the canonical text of a map: an LF after every line, `.` for a free cell and `@` for a blocked one,
/// and nothing after the last row.
pub fn write_map(alloc: Global, grid: &Grid) -> Result<Text, Memory>
    ensures { IfOk result (λ text. text ≡ map_text_of grid.now) }
{
    let mut text = Text::new(alloc);
    push_bytes(&mut text, b"type octile\nheight ")?;
    push_number(&mut text, u64::from(grid.height()))?;
    push_bytes(&mut text, b"\nwidth ")?;
    push_number(&mut text, u64::from(grid.width()))?;
    push_bytes(&mut text, b"\nmap\n")?;
    for row in 0..grid.height() {
        push_row(&mut text, grid, row)?;
    }
    Ok(text)
}

// Appends a row and its LF.
fn push_row(text: &mut Text, grid: &Grid, row: u32) -> Result<(), Memory>
    ensures { OnOk result (text.new ≡ text.old ++ (row_text grid.now row ++ 10 ∷ [])) }
{
    for col in 0..grid.width() {
        let is_free = grid.is_free(Cell { row, col });
        text.push(if is_free { b'.' } else { b'@' })?;
    }
    text.push(b'\n')
}
