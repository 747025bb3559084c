//! Trials of turns under other limits than those of the program, and of input and answers that come in pieces.
#![tactic(auto)]

#[cfg(test)]
mod ahead;
#[cfg(test)]
mod pieces;
#[cfg(test)]
mod serving;
