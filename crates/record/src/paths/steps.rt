ghost use Rattle.std.specs.Prelude.{◌≡◌, ◌==◌, ◌≤◌, map, filter, length, not, drop, position};
ghost use Rattle.std.specs.List.{range_with_len, before_first, position_or_len};
ghost use Rattle.record.specs.Paths.{paths_draft};
ghost use Rattle.record.specs.Steps.{at_step, cell, visits, visit_count};

use super::Paths;
use crate::MAX_CARRIERS;
use crate::entry::Entry;
use crate::header::Header;

/// How many entries of a path are visits: as many as there are runs of entries in one cell.
fn visits_on(path: &[Entry]) -> u16
    requires { length path.now ≤ 512 }
    ensures { result ≡ visit_count (map (λ e. e.cell) path.now) }
{
    path.chunk_by(|before, after| before.cell == after.cell)
        .count() as u16
}

/// Where another carrier's entries begin in a list, if any do.
fn next_path(entries: &[Entry], carrier: u8) -> Option<usize>
    ensures { result ≡ position (λ e. not (e.carrier == carrier)) entries.now }
{
    entries.iter().position(|entry| entry.carrier != carrier)
}

/// The entries at the front of a list that are a carrier's, and those after them.
fn split_path(entries: &[Entry], carrier: u8) -> (&[Entry], &[Entry])
    ensures own { result.0.now ≡ before_first (λ e. not (e.carrier == carrier)) entries.now }
    ensures after { result.1.now ≡ drop (position_or_len (λ e. not (e.carrier == carrier)) entries.now) entries.now }
{
    entries.split_at(next_path(entries, carrier).unwrap_or(entries.len()))
}

/// The cell of a path at a step, 0 where the path has no entry. After its last entry a carrier
/// rests there.
fn cell_on(path: &[Entry], step: u16) -> u16
    ensures { result ≡ at_step (map (λ e. e.cell) path.now) step }
{
    path.get(usize::from(step))
        .or(path.last())
        .map_or(0, |entry| entry.cell)
}

impl Paths {
    /// The record's header.
    pub fn header(&self) -> Header
        ensures { result ≡ self.now.header }
    {
        self.header
    }

    /// The entries, in the order of the record.
    pub fn entries(&self) -> &[Entry]
        ensures { result.now ≡ (paths_draft self.now).entries }
    {
        self.entries.as_slice()
    }

    /// The entries of a carrier, by step; none for a carrier that the plan lacks.
    pub fn path(&self, carrier: u8) -> &[Entry]
        ensures own { result.now ≡ filter (λ e. e.carrier == carrier) (paths_draft self.now).entries }
        ensures few { length result.now ≤ 512 }
    {
        let entries = self.entries();
        let rest = &entries[entries.partition_point(|entry| entry.carrier < carrier)..];
        &rest[..rest.partition_point(|entry| entry.carrier == carrier)]
    }

    /// The cell of each carrier at a step, 0 for a carrier that the plan lacks.
    // One walk over the entries: for each carrier by itself, `path` would search them all.
    pub fn cells_at(&self, step: u16) -> [u16; MAX_CARRIERS]
        ensures { result ≡ map (λ i. cell (paths_draft self.now) i step) (range_with_len 0 16) }
    {
        let mut cells = [0; MAX_CARRIERS];
        let mut rest = self.entries();
        for carrier in 0..self.header.carriers {
            let (path, after) = split_path(rest, carrier);
            cells[usize::from(carrier)] = cell_on(path, step);
            rest = after;
        }
        cells
    }

    /// How many visits a carrier makes, 0 for a carrier that the plan lacks.
    pub fn visits(&self, carrier: u8) -> u16
        ensures { result ≡ visits (paths_draft self.now) carrier }
    {
        visits_on(self.path(carrier))
    }
}
