//! Trials of schedules that follow decisions, beside schedules from scratch: after each call every tick and the sum.
#![tactic(auto)]

#[cfg(test)]
mod comparing;
#[cfg(test)]
mod drawn;
#[cfg(test)]
mod following;
#[cfg(test)]
mod worked;
