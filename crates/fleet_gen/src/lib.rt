//! Generated fleets: a map of the floor and a sound plan for each seed.
#![tactic(auto)]

mod departures;
mod draws;
mod fleet;
pub mod laws;
mod road;
mod vectors;

pub use fleet::gen_fleet;
pub use road::Road;

#[cfg(test)]
mod tests;
