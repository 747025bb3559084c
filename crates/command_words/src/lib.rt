//! The words of the command line.
#![tactic(auto)]

mod command;
mod keys;
pub mod laws;
mod making;
mod numbers;
mod parsing;
mod reading;

pub use command::{Command, WordsError};
pub use reading::read_words;
