//! The release rule: which visits a state of a fleet may release, and has not.
#![tactic(auto)]

mod out;
mod rule;

pub use out::Out;
pub use rule::{kept_order_releases, releases};
