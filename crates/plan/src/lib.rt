//! Plans whose carriers are never in conflict.
#![tactic(auto)]

pub mod accepted;
mod conflicts;
mod moment;
