//! The lines of a session: what robots report, and what they are answered.
#![tactic(auto)]

mod answer;
pub mod laws;
mod reading;
mod report;
mod writing;

pub use answer::{Answer, push_answer, read_answer};
pub use report::{Malformed, read_report};

#[cfg(test)]
mod tests;
