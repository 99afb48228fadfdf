ghost use Rattle.std.specs.Prelude.{◌≡◌, ◌+◌, ◌*◌, [], length};
ghost use Rattle.fault.specs.Firsts.{Verdict};
ghost use Rattle.fixed.specs.Items.{items};
ghost use Rattle.record.specs.Layout.{draft};
ghost use Rattle.record.specs.Headers.{ReadsHeader};
ghost use Rattle.record.specs.Entries.{entry_number, EntryApplies};
ghost use Rattle.record.specs.Paths.{paths_draft};

use super::Paths;
use crate::MAX_ENTRIES;
use crate::entry::Entry;
use crate::header::Header;
use crate::layout::{HEADER_LEN, word};
use crate::listing::Listing;
use fault::kinds::EntryFault;
use fixed::list::Bounded;

/// Reads the entries of a record, whose header is read, into a list with none yet.
// Not an answer: a list is large, and would be copied on the way.
fn load(bytes: &[u8], header: &Header, entries: &mut Bounded<Entry, MAX_ENTRIES>)
    requires read { ReadsHeader bytes.now header.now }
    requires whole { length bytes.now ≡ 8 + 3 * header.now.entries }
    requires fresh { items entries.old ≡ [] }
    ensures { items entries.new ≡ (draft bytes.now).entries }
{
    let (carriers, cells) = bytes[HEADER_LEN..].split_at(usize::from(header.entries));
    for (&carrier, cell) in carriers.iter().zip(cells.chunks_exact(2)) {
        let cell = word(cell, 0);
        entries.push(Entry { carrier, cell }).unwrap();
    }
}

/// The paths of a record, or what is wrong with it.
impl TryFrom<&[u8]> for Paths {
    type Error = EntryFault;

    ghost try_from_gives = { λ bytes r. Verdict entry_number (EntryApplies bytes.now)
        (λ paths. paths_draft paths ≡ draft bytes.now) r };

    fn try_from(bytes: &[u8]) -> Result<Paths, EntryFault> {
        let header = Header::try_from(bytes)?;
        let mut entries = Bounded::new(Entry::default());
        load(bytes, &header, &mut entries);
        let listing = Listing {
            header,
            entries: entries.as_slice(),
        };
        listing.validate()?;
        Ok(Paths { header, entries })
    }
}
