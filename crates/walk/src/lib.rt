//! Visits, crossings, and the kinds of value that are summed along walks.
#![tactic(auto)]

pub mod crossing;
pub mod kinds;
pub mod visit;
