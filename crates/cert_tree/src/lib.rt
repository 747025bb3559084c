//! Certificates: why no lawful schedule is cheaper, or how far a search came. The nodes of their trees, and their text
//! both ways.
//!
//! A node has one line: `cert branch Q`, `cert force Q SIDE N Q1 Q2 ..`, `cert cyclic N Q1 Q2 ..`, `cert bound` or
//! `cert open V`. Behind `cert bound` there is a line `cert path I N Q1 ..` for each path. N says how many pairs follow.
//! Nodes stand in preorder; whether they form a tree is the checker's matter.
#![tactic(auto)]

mod fault;
mod fields;
pub mod laws;
mod line;
mod lines;
mod node;
mod reader;
mod writer;

pub use fault::CertError;
pub use node::{Cert, CertPath, Node, PathList};
pub use reader::read_cert;
pub use writer::write_cert;

#[cfg(test)]
mod tests;
