//! Trials of sessions one after another over one journal, in memory and in real files, and of journals that are refused.
#![tactic(auto)]

#[cfg(test)]
mod real;
#[cfg(test)]
mod refusing;
#[cfg(test)]
mod sessions;
