ghost use Rattle.std.specs.Prelude.{◌≡◌};
ghost use Rattle.plan_text.specs.Places.{digit_of, extended_by, next_place, is_end};

use fleet_base::Cell;

/// How far the text of a path has come, with what its last cell has so far.
#[derive(Clone, Copy)]
pub enum Place {
    /// Before the first cell.
    Start,
    /// Behind a `(`.
    Open,
    /// Behind digits of a row.
    Row(u32),
    /// Behind the comma that follows a row.
    Comma(u32),
    /// Behind digits of a column.
    Col(Cell),
    /// Behind the `)` of a cell.
    Closed(Cell),
    /// Behind the first byte of `->`.
    Dash,
    /// Behind a `->`.
    Arrow,
}

impl Place {
    /// The place behind one more byte, if any path's text goes on so.
    pub fn after(self, byte: u8) -> Option<Place>
        ensures { result ≡ next_place self byte }
    {
        match self {
            Place::Start | Place::Arrow => (byte == b'(').then_some(Place::Open),
            Place::Open => digit(byte).map(Place::Row),
            Place::Row(row) if byte == b',' => Some(Place::Comma(row)),
            Place::Row(row) => extended(row, byte).map(Place::Row),
            Place::Comma(row) => digit(byte).map(|col| Place::Col(Cell { row, col })),
            Place::Col(cell) if byte == b')' => Some(Place::Closed(cell)),
            Place::Col(cell) => extended(cell.col, byte).map(|col| Place::Col(Cell {
                row: cell.row,
                col,
            })),
            Place::Closed(_) => (byte == b'-').then_some(Place::Dash),
            Place::Dash => (byte == b'>').then_some(Place::Arrow),
        }
    }

    /// Whether a text may end here.
    pub fn is_end(self) -> bool
        ensures { result ≡ is_end self }
    {
        matches!(self, Place::Closed(_) | Place::Arrow)
    }
}

fn digit(byte: u8) -> Option<u32>
    ensures { result ≡ digit_of byte }
{
    match byte {
        b'0'..=b'9' => Some(u32::from(byte - b'0')),
        _ => None,
    }
}

/// A number with one more digit: no number has a leading zero or a fifth digit.
fn extended(number: u32, byte: u8) -> Option<u32>
    ensures { result ≡ extended_by number byte }
{
    if number == 0 || number >= 1000 {
        return None;
    }
    digit(byte).map(|digit| 10 * number + digit)
}
