//! Drives that keep in memory where their carriers are.
#![tactic(auto)]

pub mod fleet;
pub mod recorded;
