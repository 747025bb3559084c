//! The choice of an order after a delay, and how far a search for a cheaper one has come: what the words mean, and the
//! laws over them. The search itself stands in a crate above.
#![tactic(auto)]

pub mod laws;
mod made;
mod outcome;

pub use made::{Forcing, MadeNode, Stand};
pub use outcome::Outcome;
