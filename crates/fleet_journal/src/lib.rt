//! The journal of accepted reports on the two sides of a station's disk: a header and entries, each in a frame that
//! stands whole behind a closed gate before that gate is opened.
#![tactic(auto)]

mod error;
mod found;
mod journal;
pub mod laws;
mod measure;
mod reading;
mod sides;
#[cfg(test)]
mod tests;

pub use error::JournalError;
pub use journal::{Finding, Journal, OtherSide};
pub use journal_frame::framed;
