//! Trials of the search: worked delays with their certificates, and drawn plans beside all orders of their open pairs and beside
//! a plain second search. Every certificate is led through its checker.
#![tactic(auto)]

#[cfg(test)]
mod answers;
#[cfg(test)]
mod drawn;
#[cfg(test)]
mod orders;
#[cfg(test)]
mod shapes;
#[cfg(test)]
mod slow;
#[cfg(test)]
mod states;
#[cfg(test)]
mod worked;
