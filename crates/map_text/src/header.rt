// The header of a map.
ghost use Rattle.std.specs.Prelude.{◌≡◌, ◌∷◌, ◌++◌, IfOk, IfErr, slice_get};
ghost use Rattle.fleet_base.specs.Bytes.{file_lines, numeral};
ghost use Rattle.map_text.specs.MapText.{IsSize, HasHeader};
ghost use Rattle.map_text.specs.MapFaults.{IsWrongSide, IsMapFault};

use crate::fault::{MapFault, MapKind};
use crate::lines::skip_line;
use crate::numerals::capped_number;
use fleet_base::first_line;
use fleet_base::limits::SPAN;

/// The sides of a map, and the text after its header.
#[derive(Clone, Copy, Debug)]
pub struct Header<'a> {
    pub height: u32,
    pub width: u32,
    pub rest: &'a [u8],
}

/// Reads the header of a map.
pub fn read_header(bytes: &[u8]) -> Result<Header<'_>, MapFault>
    ensures ok { IfOk result (λ found.
        HasHeader found.height found.width (file_lines bytes.now) (file_lines found.rest.now)) }
    ensures err { IfErr result (λ fault. IsMapFault (file_lines bytes.now) fault.line fault.kind) }
{
    let Some(rest) = skip_line(bytes, b"type octile") else {
        return Err(MapFault {
            line: 1,
            kind: MapKind::Octile,
        });
    };
    let (height, rest) = match read_side(rest, b"height ", MapKind::Height) {
        Ok(side) => side,
        Err(kind) => return Err(MapFault { line: 2, kind }),
    };
    let (width, rest) = match read_side(rest, b"width ", MapKind::Width) {
        Ok(side) => side,
        Err(kind) => return Err(MapFault { line: 3, kind }),
    };
    let Some(rest) = skip_line(rest, b"map") else {
        return Err(MapFault {
            line: 4,
            kind: MapKind::Map,
        });
    };
    Ok(Header {
        height,
        width,
        rest,
    })
}

// Reads a side from the first line, which has this label, and gives the text after that line.
fn read_side<'a>(bytes: &'a [u8], label: &[u8], own: MapKind) -> Result<(u32, &'a [u8]), MapKind>
    ensures line { IfOk result (λ side.
        file_lines bytes.now ≡ (label.now ++ numeral side.0) ∷ file_lines side.1.now) }
    ensures size { IfOk result (λ side. IsSize side.0) }
    ensures err { IfErr result (IsWrongSide label.now own (slice_get (file_lines bytes.now) 0)) }
{
    let Some((line, rest)) = first_line(bytes) else {
        return Err(own);
    };
    let Some(digits) = line.strip_prefix(label) else {
        return Err(own);
    };
    let Some(value) = capped_number(digits) else {
        return Err(own);
    };
    if value == 0 || value > SPAN {
        return Err(MapKind::Size);
    }
    Ok((value, rest))
}
