//! The pairs of a plan: two robots with one visit of each at the same cell.
#![tactic(auto)]

mod count;
mod error;
mod list;
mod stops;
mod table;
#[cfg(test)]
mod tests;

pub use error::PairsError;
pub use table::pairs;
