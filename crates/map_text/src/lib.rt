//! The texts of maps, read and written, and those of scenarios, read.
#![tactic(auto)]

mod fault;
mod fields;
mod header;
pub mod laws;
mod lines;
mod numerals;
mod read;
mod rows;
mod scenario;
mod tasks;
mod write;

pub use fault::{MapError, MapFault, MapKind};
pub use read::read_map;
pub use scenario::{ScenError, ScenFault, ScenKind, Task, TaskList};
pub use tasks::read_scen;
pub use write::write_map;

#[cfg(test)]
mod tests;
