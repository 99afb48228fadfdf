//! The visits of a plan, and where they cross.
#![tactic(auto)]

pub mod crossings;
pub mod visits;
