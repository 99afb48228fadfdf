//! What every drive keeps to, whoever makes it: the trait `Drive`, where carriers are, and the
//! checks before a send and a report.
#![tactic(auto)]

pub mod checks;
pub mod interface;
pub mod place;
