//! The payloads of a journal's frames, headers and entries, as bytes and as values, both ways, and frames as they are
//! written.
#![tactic(auto)]

mod entry;
mod error;
mod fields;
mod frame;
mod header;
pub mod laws;
#[cfg(test)]
mod tests;

pub use entry::{entry_bytes, read_entry};
pub use error::FrameError;
pub use frame::framed;
pub use header::{Header, HeaderParts, header_bytes, read_header};
