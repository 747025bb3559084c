//! Which steps a sound plan, whose paths are fixed, allows to one more robot.
#![tactic(auto)]

pub mod laws;
mod steps;

pub use steps::{is_clear, may_step};
