//! Plans for the tasks of a scenario, one robot after another.
#![tactic(auto)]

mod backward;
mod cells;
mod fault;
mod forward;
pub mod laws;
mod plan;
mod search;
mod steps;
mod tables;
mod tasks;

pub use fault::{PlannerError, TaskWhy};
pub use plan::plan_in_turn;

#[cfg(test)]
mod tests;
