use thiserror::Error;

/// What is wrong with a line of a text that is no map.
#[derive(Clone, Copy, Debug, PartialEq, Eq)]
pub enum MapKind {
    /// The first line is not `type octile`.
    Octile,
    /// The second line is not `height` and a number.
    Height,
    /// The third line is not `width` and a number.
    Width,
    /// The height or the width is not 1 to 4,096.
    Size,
    /// The fourth line is not `map`.
    Map,
    /// A row is missing.
    Short,
    /// A row is longer or shorter than the width.
    Row,
    /// A row has a character that stands for no cell.
    Char,
    /// A line after the rows is not empty.
    More,
}

/// The first line of a text at which it is no map, counted from 1, and what is wrong there.
#[derive(Clone, Copy, Debug, PartialEq, Eq, Error)]
#[error("line {line} is no line of a map")]
pub struct MapFault {
    pub line: u32,
    pub kind: MapKind,
}

/// Why a text is not read as a map.
#[derive(Clone, Copy, Debug, PartialEq, Eq, Error)]
pub enum MapError {
    /// The text is no map.
    #[error("{0}")]
    Fault(MapFault),
    /// Memory ran out.
    #[error("out of memory")]
    Memory,
}
