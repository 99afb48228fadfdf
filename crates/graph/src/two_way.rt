ghost use Rattle.std.specs.Prelude.{◌≡◌, ℕ, ◌<◌, ◌↔◌, IsTrue, not, ◌&&◌, List, map, length};
ghost use Rattle.walk.specs.Edges.{Edge, has_next, is_start};
ghost use Rattle.walk.specs.Walks.{GraphWalk};
ghost use Rattle.walk.specs.Ways.{test_ways, Passes};
ghost use Rattle.graph.specs.Inputs.{ways_in};
ghost use Rattle.graph.specs.Graphs.{one_way, AllTested};
ghost use Rattle.graph.specs.Nets.{net_visits, net_crossings};

use crate::net::Net;
use crate::plan_sums::plan_ways;
use record::MAX_ENTRIES;
use walk::crossing::{Crossing, MAX_CROSSINGS, Ways};
use walk::kinds::Mark;

impl Net {
    /// Whether a crossing can be two-way at all: its first visit is no carrier's start, and its
    /// second no carrier's last.
    fn is_candidate(&self, tested: &Crossing) -> bool
        requires { tested.now.first < length (net_visits self.now) }
        ensures { result ≡ (not (is_start (net_visits self.now) tested.now.first) && has_next (net_visits self.now) tested.now.second) }
    {
        !self.is_start(usize::from(tested.first)) && self.has_next(tested.second)
    }

    /// The edges of a crossing's test at another crossing: its plan edge, and its reversed edge if
    /// it is two-way already.
    fn test_way(&self, tested: usize, other: usize) -> Ways
        ensures { result ≡ test_ways (net_crossings self.now) tested other }
    {
        Ways {
            plan: other != tested,
            reversed: other < tested
                && self
                    .crossings()
                    .get(other)
                    .is_some_and(|crossing| crossing.two_way),
        }
    }

    /// The edges of a crossing's test.
    // Past the crossings that there are nothing is read, so no time goes there.
    fn test_ways(&self, tested: usize) -> [Ways; MAX_CROSSINGS]
        requires { tested < length (net_crossings self.now) }
        ensures { (j : ℕ) → j < 1024 → ways_in result j ≡ test_ways (net_crossings self.now) tested j }
    {
        let mut ways = plan_ways();
        for (other, way) in ways[..self.crossings().len()].iter_mut().enumerate() {
            *way = self.test_way(tested, other);
        }
        ways
    }

    /// Whether a walk leads from one visit to another, where `ways` says which edges of each
    /// crossing are taken.
    fn leads(&self, ways: &[Ways; MAX_CROSSINGS], from: usize, to: usize) -> bool
        requires from { from < length (net_visits self.now) }
        requires to { to < length (net_visits self.now) }
        ensures { IsTrue result ↔ ((w : List Edge) × GraphWalk (net_visits self.now) (net_crossings self.now) (ways_in ways.now) from to w) }
    {
        let mut start = [Mark::default(); MAX_ENTRIES];
        start[from] = Mark { set: true };
        self.sum_at(ways, &start, to).set
    }

    /// Whether a crossing passes the test: it is a candidate, and no walk leads from its first visit
    /// to the visit after its second over the edges of its test.
    fn passes(&self, tested: usize) -> bool
        requires { tested < length (net_crossings self.now) }
        ensures { IsTrue result ↔ Passes (net_visits self.now) (net_crossings self.now) tested }
    {
        let crossing = self.crossings()[tested];
        self.is_candidate(&crossing)
            && !self.leads(
                &self.test_ways(tested),
                usize::from(crossing.first),
                usize::from(crossing.second) + 1,
            )
    }

    /// Finds out, one after another, which crossings are two-way.
    pub(crate) fn test_all(&mut self)
        ensures visits { net_visits self.new ≡ net_visits self.old }
        ensures same { map one_way (net_crossings self.new) ≡ map one_way (net_crossings self.old) }
        ensures tested { AllTested (net_visits self.new) (net_crossings self.new) (length (net_crossings self.new)) }
    {
        // A test reads what the ones before it found, so this is no walk over the crossings.
        for tested in 0..self.crossings().len() {
            let two_way = self.passes(tested);
            self.set_two_way(tested, two_way);
        }
    }
}
