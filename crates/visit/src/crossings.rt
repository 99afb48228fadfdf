ghost use Rattle.std.specs.Prelude.{◌≡◌, false, ◌<◌, ◌≤◌, ◌^◌, length, MatchResult};
ghost use Rattle.fixed.specs.Items.{items};
ghost use Rattle.visit.specs.Crossings.{cross, plan_crossings};

use fixed::list::Bounded;
use fixed::list::methods::Full;
use record::MAX_ENTRIES;
use walk::crossing::{Crossing, MAX_CROSSINGS};
use walk::visit::Visit;

/// Whether two visits cross, the first being the earlier in the plan.
fn crosses(first: &Visit, second: &Visit) -> bool
    ensures { result ≡ cross first.now second.now }
{
    first.carrier != second.carrier && first.cell == second.cell && first.step < second.step
}

/// The crossing of two visits in a cell, one-way as yet.
fn crossing_at(cell: u16, first: usize, second: usize) -> Crossing
    requires first { first < 2 ^ 16 }
    requires second { second < 2 ^ 16 }
    ensures { result ≡ record { cell = cell; first = first; second = second; two_way = false } }
{
    Crossing {
        cell,
        first: first as u16,
        second: second as u16,
        two_way: false,
    }
}

/// The crossings of some visits, each one-way as yet, unless they are too many.
pub fn crossings_of(
    visits: &Bounded<Visit, MAX_ENTRIES>,
) -> Result<Bounded<Crossing, MAX_CROSSINGS>, Full>
    ensures { MatchResult result (λ found. (items found ≡ plan_crossings (items visits.now)) × (length (items found) ≤ 1024)) (λ _. 1024 < length (plan_crossings (items visits.now))) }
{
    let visits = visits.as_slice();
    let mut crossings = Bounded::new(Crossing::default());
    for (u, first) in visits.iter().enumerate() {
        for (w, second) in visits.iter().enumerate() {
            if crosses(first, second) {
                crossings.push(crossing_at(first.cell, u, w))?;
            }
        }
    }
    Ok(crossings)
}
