//! Trials of lives: sessions that end or are stopped as dice have it, beside robots that go on all that was ever sent.
#![tactic(auto)]

#[cfg(test)]
mod dice;
#[cfg(test)]
mod living;
#[cfg(test)]
mod world;
