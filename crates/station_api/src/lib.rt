//! The outside of the program: a shelf of files, a source of report lines, and a station with the journal's disk and
//! the answer line. Each tells, for proofs alone, what it holds and how often it has failed.
#![tactic(auto)]

mod call;
mod disk;
mod mem_shelf;
mod mem_source;
mod mem_station;
mod meter;
mod play;
mod shelf;
mod source;
mod station;
#[cfg(test)]
mod tests;

pub use mem_shelf::MemShelf;
pub use mem_source::MemSource;
pub use mem_station::MemStation;
pub use shelf::{Shelf, ShelfFault};
pub use source::Source;
pub use station::{AttachFault, DiskSide, Failed, Station, sync_both};
