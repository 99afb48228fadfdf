//! Plan records: bytes read into the carriers' paths, or refused.
#![tactic(auto)]

pub mod entry;
mod flaws;
pub mod header;
pub mod layout;
mod listing;
pub mod paths;

/// The most cells in a row or a column of a floor.
pub const MAX_SIDE: usize = 64;

/// The most carriers that a plan has.
pub const MAX_CARRIERS: usize = 16;

/// The most entries that a record has.
pub const MAX_ENTRIES: usize = 512;
