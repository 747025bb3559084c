//! How a search makes a node: pairs are forced by their mates, the decisions are tested for a cycle, the least schedule
//! that obeys them gives the relaxed cost, and the order that this schedule suggests is weighed against the best one.
#![tactic(auto)]

mod candidate;
mod forcing;
mod maker;
mod making;
mod room;
mod weighing;

pub use maker::Maker;
pub use room::Room;
