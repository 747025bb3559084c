//! Mates and groups of pairs: which pairs have the same first robot in every sound order.
#![tactic(auto)]

mod cursor;
pub mod laws;
mod listing;
mod lists;
mod naming;
mod packing;
mod table;

pub use table::{GroupTable, groups, mate_cycle};
