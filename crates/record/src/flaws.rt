ghost use Rattle.std.specs.Prelude.{◌≡◌, ◌*◌, ◌<◌, ◌≤◌, ◌↔◌, length, IsTrue, Option};
ghost use Rattle.std.specs.Option.{ForSome};
ghost use Rattle.fault.specs.declared.kinds.Flaw.TheVariants.{Carrier, Cell, Neighbour};
ghost use Rattle.record.specs.Entries.{FollowsOn, HasFlaw, distance};
ghost use Rattle.record.specs.Searches.{listed, Found, refusal, Validated};

use crate::entry::Entry;
use crate::listing::Listing;
use fault::kinds::{EntryFault, Flaw};

/// The rows and columns between two cells, added up.
fn distance(width: u8, a: u16, b: u16) -> u32
    requires { 1 ≤ width }
    ensures { result ≡ distance width a b }
{
    let width = u16::from(width);
    let rows = (a / width).abs_diff(b / width);
    let columns = (a % width).abs_diff(b % width);
    u32::from(rows) + u32::from(columns)
}

/// Whether a carrier's entry is neither in the cell of its entry before nor beside it.
fn jumps(width: u8, before: Entry, after: Entry) -> bool
    requires { 1 ≤ width }
    ensures { IsTrue result ↔ ((before.carrier ≡ after.carrier)
        × (1 < distance width before.cell after.cell)) }
{
    before.carrier == after.carrier && distance(width, before.cell, after.cell) > 1
}

/// Refuses entries for the flaw at the index where it was found, if it was.
// Paths are refused alike, with another fault: one function for both would be the longer.
fn refuse(flaw: Flaw, at: Option<usize>) -> Result<(), EntryFault>
    requires { ForSome at (λ k. k ≤ 512) }
    ensures { result ≡ refusal flaw at }
{
    at.map_or(Ok(()), |k| Err(EntryFault::Flawed(flaw, k as u16)))
}

impl Listing<'_> {
    /// Whether the carrier number at `k` is 0 at first, and later the one before it or one more.
    fn follows_on(&self, k: usize) -> bool
        requires { k < length self.now.entries.now }
        ensures { IsTrue result ↔ FollowsOn self.now.entries.now k }
    {
        let carrier = self.entries[k].carrier;
        if k == 0 {
            return carrier == 0;
        }
        let before = self.entries[k - 1].carrier;
        carrier == before || (carrier > 0 && carrier - 1 == before)
    }

    /// Whether the carrier number at `k` is out of turn or too high; past the last entry, whether
    /// the last is too low.
    fn misnumbered(&self, k: usize) -> bool
        requires { k ≤ length self.now.entries.now }
        ensures { IsTrue result ↔ HasFlaw (listed self.now) Carrier k }
    {
        if k == self.entries.len() {
            return self.entries[k - 1].carrier != self.header.carriers - 1;
        }
        !self.follows_on(k) || self.entries[k].carrier >= self.header.carriers
    }

    /// Whether a cell is not on the floor.
    fn off_floor(&self, cell: u16) -> bool
        ensures { IsTrue result ↔ (self.now.header.width * self.now.header.height ≤ cell) }
    {
        cell >= u16::from(self.header.width) * u16::from(self.header.height)
    }

    /// Where the carrier numbers first break their rule.
    fn first_misnumbered(&self) -> Option<usize>
        ensures { Found (listed self.now) Carrier result }
    {
        (0..=self.entries.len()).find(|&k| self.misnumbered(k))
    }

    /// The first entry whose cell is not on the floor.
    fn first_off_floor(&self) -> Option<usize>
        ensures { Found (listed self.now) Cell result }
    {
        self.entries
            .iter()
            .position(|entry| self.off_floor(entry.cell))
    }

    /// The first entry that jumps, the later one of the two.
    fn first_jump(&self) -> Option<usize>
        ensures { Found (listed self.now) Neighbour result }
    {
        let width = self.header.width;
        self.entries
            .windows(2)
            .position(|pair| jumps(width, pair[0], pair[1]))
            .map(|before| before + 1)
    }

    /// Refuses entries that have a flaw.
    pub(crate) fn validate(&self) -> Result<(), EntryFault>
        ensures { Validated (listed self.now) result }
    {
        refuse(Flaw::Carrier, self.first_misnumbered())?;
        refuse(Flaw::Cell, self.first_off_floor())?;
        refuse(Flaw::Neighbour, self.first_jump())
    }
}
