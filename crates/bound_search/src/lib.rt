//! The search for a cheaper order: the nodes that it expands, and the certificate of what it found.
#![tactic(auto)]

mod found;
mod searching;
mod under_way;
mod writing;

pub use found::Found;
pub use order_choice::Outcome;
pub use search_nodes::Room;
pub use searching::search;
