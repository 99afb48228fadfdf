//! Lists in fixed memory.
#![tactic(auto)]

pub mod list;
