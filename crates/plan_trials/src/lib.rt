//! Trials of the crates of a plan together: texts are read and checked, and their pairs and ranks are compared with slow ones.
#![tactic(auto)]

#[cfg(test)]
mod groups;
#[cfg(test)]
mod limits;
#[cfg(test)]
mod slow;
#[cfg(test)]
mod tests;
