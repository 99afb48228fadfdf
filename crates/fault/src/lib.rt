//! What is refused and why: the faults of records, plans and graphs, each layer's inside the one
//! above it, lent lists that are too short, and the faults of drives.
#![tactic(auto)]

pub mod kinds;
pub mod report;
