// A whole map.
ghost use Rattle.std.specs.Prelude.{◌≡◌, ◌+◌, ◌<◌, ◌^◌, ℕ, IfOk, OnOk, IfErr, length, slice_get, IfSome, IsSomeAnd};
ghost use Rattle.fleet_base.specs.Bytes.{file_lines};
ghost use Rattle.fleet_base.specs.Grid.{OccupancyGrid};
ghost use Rattle.map_text.specs.MapText.{IsMapText};
ghost use Rattle.map_text.specs.MapFaults.{FaultIsFirst, Gives};
ghost use Rattle.map_text.specs.RowFaults.{AreBlank, IsBlankFault};

use crate::fault::{MapError, MapFault, MapKind};
use crate::header::read_header;
use crate::rows::read_rows;
use fleet_base::{Grid, first_line};
use std::alloc::Global;

/// Reads a map: four lines of header, `type octile`, `height` and a number, `width` and a number, and `map`,
/// then as many rows as the height says, each with as many characters as the width says, and then nothing but
/// empty lines. Height and width are 1 to 4,096, without a leading zero. The characters `.`, `G` and `S` stand for
/// free cells, and `@`, `O`, `T` and `W` for blocked ones. A CR at the end of a line is dropped, and the last line
/// may lack its LF.
///
/// Any other text is refused with its first line that is not as it should be, or where a line is missing.
pub fn read_map(alloc: Global, bytes: &[u8]) -> Result<Grid, MapError>
    requires { length bytes.now < 2 ^ 32 }

    // What is read is the map that the text means.
    ensures read { IfOk result (IsMapText bytes.now) }

    // What means a map is read, unless memory runs out.
    ensures only { (g : OccupancyGrid) → IsMapText bytes.now g → Gives g result }

    // A fault is the first one.
    ensures fault { FaultIsFirst (file_lines bytes.now) result }
{
    let header = match read_header(bytes) {
        Ok(header) => header,
        Err(fault) => return Err(MapError::Fault(fault)),
    };
    let (free, rest) = read_rows(alloc, header.rest, header.height, header.width)?;
    match check_end(rest, 4 + header.height) {
        Ok(()) => Ok(Grid::new(header.height, header.width, free).unwrap()),
        Err(fault) => Err(MapError::Fault(fault)),
    }
}

/// Tests that only empty lines follow the lines above, of which there are so many.
pub fn check_end(bytes: &[u8], above: u32) -> Result<(), MapFault>
    requires { above + length (file_lines bytes.now) < 2 ^ 32 }
    ensures ok { OnOk result (AreBlank (file_lines bytes.now)) }
    ensures err { IfErr result
        (λ fault. IsBlankFault above (file_lines bytes.now) fault.line fault.kind) }
{
    let mut rest = bytes;
    let mut number = above;
    while let Some((line, after)) = first_line(rest) {
        number += 1;
        if !line.is_empty() {
            return Err(MapFault {
                line: number,
                kind: MapKind::More,
            });
        }
        rest = after;
    }
    Ok(())
}
