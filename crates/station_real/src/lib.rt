//! The real outside: files of the system, standard input, and standard output. These adapters tell nothing of what they
//! hold, and count each error as a fault.
#![tactic(auto)]

mod fault;
mod journal;
mod shelf;
mod side_file;
mod source;
mod station;
mod streams;
#[cfg(test)]
mod tests;

pub use shelf::RealShelf;
pub use source::RealSource;
pub use station::RealStation;
pub use streams::StandardStreams;
