//! Trials of least schedules: worked ones, and drawn ones beside schedules by plain rounds.
#![tactic(auto)]

#[cfg(test)]
mod drawn;
#[cfg(test)]
mod rounds;
#[cfg(test)]
mod views;
#[cfg(test)]
mod worked;
