//! Trials of the opening of journals: what two sides stand for, and what an opening makes of them.
#![tactic(auto)]

#[cfg(test)]
mod crossing;
#[cfg(test)]
mod tests;
