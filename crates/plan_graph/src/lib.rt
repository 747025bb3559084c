//! The graph of a plan, which of its pairs are open, views of it that give its pairs sides, and their ranking.
#![tactic(auto)]

mod graph;
pub mod laws;
mod opening;
mod ranking;
#[cfg(test)]
mod tests;
mod view;
mod work;

pub use graph::PlanGraph;
pub use opening::is_open;
pub use ranking::{RankRoom, Ranked, rank};
pub use view::Oriented;
