//! What trials and benches of plans share: sound plans and first states from the texts of maps and plans, events and the steps
//! that they make, and walks that are drawn.
#![tactic(auto)]

mod events;
mod plans;
mod states;
mod steps;
mod walks;

pub use events::{Event, arrive, delay, switching};
pub use plans::{CORRIDOR, CROSSING, Texts, listed, planned, sound_plan};
pub use states::{after, first, first_ahead, view_of};
pub use steps::{Outcome, step};
pub use walks::{Dice, SQUARE, drawn_walks, text_of};
