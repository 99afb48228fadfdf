//! Layers over any one drive, each of which is a drive again, and the bench that one of them makes.
#![tactic(auto)]

pub mod bench;
pub mod hold_back;
pub mod hold_ups;
pub mod section;
