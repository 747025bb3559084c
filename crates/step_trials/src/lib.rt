//! Trials of steps: how reports are judged and what they change, what each step of a plan releases, and whole plans that are
//! played out where a robot may hold several releases.
#![tactic(auto)]

#[cfg(test)]
mod reports;
#[cfg(test)]
mod steps;
#[cfg(test)]
mod windows;
