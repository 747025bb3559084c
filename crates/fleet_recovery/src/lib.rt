//! The fleet state for which the two sides of a journal stand, and the opening of a journal, so that a session can begin.
#![tactic(auto)]

mod error;
pub mod laws;
mod looking;
mod opening;
mod papers;
mod replay;

pub use error::RecoverError;
pub use looking::{Looked, look, look_on};
pub use opening::{recover, recover_on};
pub use papers::Papers;
