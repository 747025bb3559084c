//! Whether a plan can be carried out on a grid: its visits, or its first fault.
#![tactic(auto)]

mod checker;
mod fault;
pub mod laws;
mod limits;
mod occupants;
mod paths;
mod places;
mod rotations;
mod swaps;

pub use checker::check;
pub use fault::{CheckError, Large, Unsound};

#[cfg(test)]
mod tests;
