//! The temporal plan graph of a plan.
#![tactic(auto)]

pub mod graph;
mod links;
mod net;
mod plan_sums;
mod sums;
mod two_way;
