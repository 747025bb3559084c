//! The checker of certificates: whether a tree shows that no lawful schedule costs less. Beside it, what an order costs.
//!
//! It shares no code with schedules, ranks or the search: paths and cycles are followed pair by pair, and relaxed ticks
//! are raised by plain rounds over all visits until a round changes nothing.
#![tactic(auto)]

mod check;
mod cost;
mod cycle;
mod edges;
mod groups;
mod judge;
pub mod laws;
mod path;
mod rounds;
mod scratch;
mod sums;
mod verdict;
mod way;
mod workspace;

pub use check::{check_optimal, check_spent};
pub use cost::order_cost;
pub use scratch::Scratch;
pub use verdict::{NoWhy, Verdict};
