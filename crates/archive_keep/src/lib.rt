//! The archive of runs: how each robot ended each finished run, stored once for a name, and the report of how late
//! the robots were.
#![tactic(auto)]

mod calls;
mod ends;
mod keeper;
mod kept_run;
mod late_lines;
mod mem_keeper;
#[cfg(test)]
mod tests;

pub use ends::{EndList, RUNS, RobotEnd, is_storable};
pub use keeper::{KeepFault, Keeper, Stored};
pub use late_lines::lateness;
pub use mem_keeper::MemKeeper;
