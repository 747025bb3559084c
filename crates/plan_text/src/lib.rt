//! The text of a plan, read and written, in the form that the usual planners for many agents print.
//!
//! Line i, counted from 0, is `Agent i: `, then one or more cells `(r,c)` parted by `->`, then optionally one last `->`.
//! Row and column are numbers of at most four digits without a leading zero. There is a line for each robot and one
//! robot at least. A line ends with LF or CRLF, the last one may lack its end, and empty lines after the last robot
//! are dropped.
#![tactic(auto)]

mod fault;
pub mod laws;
mod line;
mod lines;
mod place;
mod reader;
mod spelling;
mod writer;

pub use fault::{PlanError, PlanFault, PlanKind, WritePlanError};
pub use reader::read_plan;
pub use writer::write_plan;

#[cfg(test)]
mod tests;
