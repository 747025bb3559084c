//! The top call of the fleet executive: all that the program does, over whatever stands for the outside.
#![tactic(auto)]

mod fault;
mod generating;
pub mod laws;
mod lines;
mod papers;
mod planning;
mod refusing;
mod saying;
mod session;
mod task;
mod top;

pub use top::fleet_main;
