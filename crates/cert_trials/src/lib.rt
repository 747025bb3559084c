//! Trials of the checker of certificates: texts of maps, plans, reports and certificates, and what the checker says of them.
#![tactic(auto)]

#[cfg(test)]
mod checking;
#[cfg(test)]
mod costs;
#[cfg(test)]
mod mates;
#[cfg(test)]
mod optimal;
#[cfg(test)]
mod scenes;
#[cfg(test)]
mod spent;
