ghost use Rattle.std.specs.Prelude.{◌≡◌, length};

use crate::entry::Entry;
use crate::header::Header;

/// A record's header with its entries, which may have flaws.
#[derive(Clone, Copy)]
pub(crate) struct Listing<'a> {
    pub header: Header,
    pub entries: &'a [Entry],
    ghost counted: { length entries.now ≡ header.entries },
}
