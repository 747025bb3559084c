// The rows of a map.
ghost use Rattle.std.specs.Prelude.{◌≡◌, ◌≤◌, ◌++◌, ℕ, IfSome, IfOk, OnOk, length, map, drop, take, slice_get, is_some, IsTrue, ◌||◌};
ghost use Rattle.fleet_base.specs.Bytes.{file_lines};
ghost use Rattle.map_text.specs.MapText.{IsSize, is_free_char, is_blocked_char, is_row, cells_of};
ghost use Rattle.map_text.specs.RowFaults.{HasRows, TakesRow, RowFaultIs, RowsFaultIs, CharFaultIs};

use crate::fault::{MapError, MapFault, MapKind};
use fleet_base::first_line;
use std::alloc::Global;

/// Reads the rows of a map below its header, and gives its cells and the text after the rows.
pub fn read_rows(
    alloc: Global,
    bytes: &[u8],
    height: u32,
    width: u32,
) -> Result<(Vec<bool>, &[u8]), MapError>
    requires height { IsSize height }
    requires width { IsSize width }
    ensures rows { OnOk result (HasRows width height (file_lines bytes.now)) }
    ensures cells { IfOk result (λ x. x.0.items ≡ cells_of (take height (file_lines bytes.now))) }
    ensures rest { IfOk result (λ x. file_lines x.1.now ≡ drop height (file_lines bytes.now)) }
    ensures fault { RowsFaultIs width height (file_lines bytes.now) result }
{
    // The text that is left has room for these cells, or is too short for the rows.
    let cells = (height as usize * width as usize).min(bytes.len());
    let Ok(mut free) = Vec::with_capacity(alloc, cells) else {
        return Err(MapError::Memory);
    };
    let mut rest = bytes;
    for row in 0..height {
        rest = read_row(&mut free, rest, width, 5 + row)?;
    }
    Ok((free, rest))
}

// Reads one row, whose line has this number, adds its cells, and gives the text after it.
fn read_row<'a>(
    free: &mut Vec<bool>,
    bytes: &'a [u8],
    width: u32,
    number: u32,
) -> Result<&'a [u8], MapError>
    ensures row { IfOk result (λ rest.
        TakesRow width (file_lines bytes.now) (file_lines rest.now) free.old.items free.new.items) }
    ensures fault { RowFaultIs width (slice_get (file_lines bytes.now) 0) number result }
{
    let Some((line, rest)) = first_line(bytes) else {
        return Err(fault(number, MapKind::Short));
    };
    if line.len() != width as usize {
        return Err(fault(number, MapKind::Row));
    }
    push_cells(free, line, number)?;
    Ok(rest)
}

// Adds the cells that the characters of a row stand for.
fn push_cells(free: &mut Vec<bool>, row: &[u8], number: u32) -> Result<(), MapError>
    ensures chars { OnOk result (IsTrue (is_row row.now)) }
    ensures cells { OnOk result (free.new.items ≡ free.old.items ++ map is_free_char row.now) }
    ensures fault { CharFaultIs row.now number result }
{
    for byte in row {
        let Some(is_free) = cell_of(*byte) else {
            return Err(fault(number, MapKind::Char));
        };
        if free.push(is_free).is_err() {
            return Err(MapError::Memory);
        }
    }
    Ok(())
}

// Whether a character stands for a free cell, if it stands for a cell.
fn cell_of(byte: u8) -> Option<bool>
    ensures some { is_some result ≡ (is_free_char byte || is_blocked_char byte) }
    ensures value { IfSome result (λ is_free. is_free ≡ is_free_char byte) }
{
    match byte {
        b'.' | b'G' | b'S' => Some(true),
        b'@' | b'O' | b'T' | b'W' => Some(false),
        _ => None,
    }
}

fn fault(line: u32, kind: MapKind) -> MapError
    ensures { result ≡ MapError.Fault (record { line = line; kind = kind }) }
{
    MapError::Fault(MapFault { line, kind })
}
