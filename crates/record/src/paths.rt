ghost use Rattle.std.specs.Prelude.{◌≡◌, length};
ghost use Rattle.fixed.specs.Items.{items};
ghost use Rattle.record.specs.Headers.{draft_of};
ghost use Rattle.record.specs.Entries.{Sound};

use crate::MAX_ENTRIES;
use crate::entry::Entry;
use crate::header::Header;
use fixed::list::Bounded;

pub mod reads;
pub mod steps;

/// The paths of all carriers: a record's entries, free of flaws.
#[derive(Clone, Copy)]
pub struct Paths {
    header: Header,
    entries: Bounded<Entry, MAX_ENTRIES>,
    ghost counted: { length (items entries) ≡ header.entries },
    ghost sound: { Sound (draft_of header (items entries)) },
}
