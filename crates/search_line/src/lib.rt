//! The nodes that a search made, in preorder, which of them waits with the least relaxed cost, and how a search goes from
//! one to another.
#![tactic(auto)]

mod going;
mod kept;
mod line;
#[cfg(test)]
mod tests;
mod turns;

pub use line::{Line, Waiting};
