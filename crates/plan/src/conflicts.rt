ghost use Rattle.std.specs.Prelude.{◌≡◌, ◌-◌, ◌<◌, ◌↔◌, map, IsTrue};
ghost use Rattle.std.specs.List.{range_with_len};
ghost use Rattle.record.specs.Paths.{paths_draft};
ghost use Rattle.record.specs.Steps.{cell};
ghost use Rattle.plan.specs.Searches.{IsMoment, Meets, Lowest, LowestPair, Soonest};

use crate::moment::Moment;
use fault::kinds::{Conflict, Meeting};
use record::MAX_CARRIERS;
use record::paths::Paths;

impl Moment {
    /// The moment of a step, when the cells of the step before are known.
    fn at(paths: &Paths, step: u16, earlier: [u16; MAX_CARRIERS]) -> Moment
        requires { earlier ≡ map (λ i. cell (paths_draft paths.now) i (step - 1)) (range_with_len 0 16) }
        ensures { IsMoment (paths_draft paths.now) step result }
    {
        Moment {
            earlier,
            later: paths.cells_at(step),
            carriers: paths.header().carriers,
        }
    }

    /// Whether two carriers are in conflict.
    fn meets(&self, kind: Conflict, first: u8, second: u8) -> bool
        requires first_known { first < self.now.carriers }
        requires second_known { second < self.now.carriers }
        ensures { IsTrue result ↔ Meets kind self.now first second }
    {
        let earlier = &self.earlier;
        let later = &self.later;
        let (first, second) = (usize::from(first), usize::from(second));
        // No closure in place of the kind: the fault carries the kind and the contracts speak of it,
        // so a closure would only be handed on beside it.
        match kind {
            Conflict::Clash => first < second && later[first] == later[second],
            Conflict::Following => {
                first != second && later[first] == earlier[second] && later[first] != earlier[first]
            }
        }
    }

    /// The lowest carrier that `first` is in conflict with.
    fn lowest_second(&self, kind: Conflict, first: u8) -> Option<u8>
        requires { first < self.now.carriers }
        ensures { Lowest self.now.carriers (Meets kind self.now first) result }
    {
        (0..self.carriers).find(|&second| self.meets(kind, first, second))
    }

    /// The lowest pair of carriers in conflict.
    fn lowest_pair(&self, kind: Conflict) -> Option<(u8, u8)>
        ensures { LowestPair self.now.carriers (Meets kind self.now) result }
    {
        (0..self.carriers).find_map(|first| {
            self.lowest_second(kind, first)
                .map(|second| (first, second))
        })
    }
}

/// The soonest conflict of a kind. No path is longer than all entries together, so later steps
/// bring nothing new.
// The cells of a step are those before the next one: a chain over the steps asks for them twice.
pub(crate) fn soonest(paths: &Paths, kind: Conflict) -> Option<Meeting>
    ensures { Soonest (paths_draft paths.now) kind result }
{
    // Nothing comes before step 0, so there the step before is the same.
    let mut earlier = paths.cells_at(0);
    for step in 0..paths.header().entries {
        let moment = Moment::at(paths, step, earlier);
        if let Some((first, second)) = moment.lowest_pair(kind) {
            return Some(Meeting {
                step,
                first,
                second,
            });
        }
        earlier = moment.later;
    }
    None
}
