//! Trials of the commands and of one session: each check, each generated fleet, each plan and each report line has its answer.
#![tactic(auto)]

#[cfg(test)]
mod answering;
#[cfg(test)]
mod checking;
#[cfg(test)]
mod choosing;
#[cfg(test)]
mod generating;
#[cfg(test)]
mod planning;
#[cfg(test)]
mod wording;
