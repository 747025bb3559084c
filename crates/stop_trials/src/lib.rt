//! Trials of stops and of faults at each call: what they leave of journal and answers, and what the next session knows.
#![tactic(auto)]

#[cfg(test)]
mod failing;
#[cfg(test)]
mod knowing;
#[cfg(test)]
mod stopping;
#[cfg(test)]
mod tearing;
