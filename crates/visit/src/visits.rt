ghost use Rattle.std.specs.Prelude.{◌≡◌, ◌+◌, ◌<◌, ◌≤◌, ◌++◌, map, length};
ghost use Rattle.fixed.specs.Items.{items};
ghost use Rattle.record.specs.Paths.{paths_draft};
ghost use Rattle.record.specs.Steps.{visit_at};
ghost use Rattle.visit.specs.Visits.{carrier_visits, plan_visits};

use fixed::list::Bounded;
use record::MAX_ENTRIES;
use record::entry::Entry;
use record::paths::Paths;
use walk::visit::{NO_VISIT, Visit};

/// Whether a path's entry at a step is a visit.
// `Paths::visits` counts runs of entries instead: a test for both would ask its callers for a step.
fn is_visit(path: &[Entry], step: usize) -> bool
    requires { step < length path.now }
    ensures { result ≡ visit_at (map (λ e. e.cell) path.now) step }
{
    step == 0 || path[step - 1].cell != path[step].cell
}

/// The visit that an entry is, at a step.
fn visit_of(entry: &Entry, step: usize) -> Visit
    requires { step < 512 }
    ensures { result ≡ record { carrier = entry.now.carrier; cell = entry.now.cell; step = step } }
{
    Visit {
        carrier: entry.carrier,
        cell: entry.cell,
        step: step as u16,
    }
}

/// Adds a carrier's visits.
fn add_visits(paths: &Paths, carrier: u8, visits: &mut Bounded<Visit, MAX_ENTRIES>)
    requires { length (items visits.old) + length (carrier_visits (paths_draft paths.now).entries carrier) ≤ 512 }
    ensures { items visits.new ≡ items visits.old ++ carrier_visits (paths_draft paths.now).entries carrier }
{
    let path = paths.path(carrier);
    for (step, entry) in path.iter().enumerate() {
        if is_visit(path, step) {
            visits.push(visit_of(entry, step)).unwrap();
        }
    }
}

/// The visits of all carriers. An entry is one visit at most, so there is room for them.
pub fn visits_of(paths: &Paths) -> Bounded<Visit, MAX_ENTRIES>
    ensures { items result ≡ plan_visits (paths_draft paths.now) }
{
    let mut visits = Bounded::new(NO_VISIT);
    for carrier in 0..paths.header().carriers {
        add_visits(paths, carrier, &mut visits);
    }
    visits
}
