ghost use Rattle.std.specs.Prelude.{◌≡◌, ℕ, ◌<◌, ◌↔◌, IsTrue, map, length, slice_index_or, slice_set};
ghost use Rattle.std.specs.List.{range_with_len};
ghost use Rattle.walk.specs.Edges.{visit};
ghost use Rattle.walk.specs.Sums.{sum_over, sum_at};
ghost use Rattle.graph.specs.Links.{Within, Inside, link_from, link_to};
ghost use Rattle.graph.specs.Inputs.{ways_in, starts_in};
ghost use Rattle.graph.specs.Nets.{net_visits, net_crossings};
ghost use Rattle.graph.specs.Rounds.{round_at};

use crate::links::Link;
use crate::net::Net;
use record::MAX_ENTRIES;
use walk::crossing::{MAX_CROSSINGS, Ways};
use walk::kinds::Kind;
use walk::visit::Visit;

/// What a sum goes over: the visits, the links between them, and what starts at each visit.
// The values of a round are no part of it: as fields they would be two `&mut`s that each method lends
// on, and no plainer than parameters whose lengths a call asks for.
#[derive(Drop)]
struct Sum<'a, K> {
    visits: &'a [Visit],
    links: &'a [Link],
    start: &'a [K],
    ghost inside: { Inside (length visits.now) links.now },
    ghost started: { length start.now ≡ length visits.now },
}

/// Whether two lists of one length have the same value in each place.
fn agree<K: Kind>(values: &[K], next: &[K]) -> bool
    requires { length values.now ≡ length next.now }
    ensures { IsTrue result ↔ ((k : ℕ) → k < length values.now → slice_index_or values.now k K.ops.zero ≡ slice_index_or next.now k K.ops.zero) }
{
    values
        .iter()
        .zip(next)
        .all(|(value, other)| value.same(*other))
}

/// Whether two lists of one length are the same.
// Apart from `agree`, so that whoever asks need not go through the places.
fn same<K: Kind>(values: &[K], next: &[K]) -> bool
    requires { length values.now ≡ length next.now }
    ensures { IsTrue result ↔ (values.now ≡ next.now) }
{
    agree(values, next)
}

/// Takes `next` over into `values`, and says whether nothing changed.
fn settle<K: Kind>(values: &mut [K], next: &[K]) -> bool
    requires { length values.old ≡ length next.now }
    ensures after { values.new ≡ next.now }
    ensures quiet { IsTrue result ↔ (values.old ≡ next.now) }
{
    let quiet = same(values, next);
    values.copy_from_slice(next);
    quiet
}

impl<'a, K: Kind> Sum<'a, K> {
    /// What a link brings: the value that it comes from, carried into the visit that it leads to.
    fn bring(&self, link: Link, values: &[K], next: &mut [K])
        requires inside { Within (length self.now.visits.now) link }
        requires values { length values.now ≡ length self.now.visits.now }
        requires next { length next.old ≡ length self.now.visits.now }
        ensures { next.new ≡ slice_set next.old link.to (K.ops.join (slice_index_or next.old link.to K.ops.zero) (K.ops.step (slice_index_or values.now link.from K.ops.zero) (visit self.now.visits.now link.to))) }
    {
        let to = usize::from(link.to);
        let brought = values[usize::from(link.from)].step(self.visits[to]);
        next[to] = next[to].join(brought);
    }

    /// One round: what starts at each visit, joined with what every link brings there.
    fn round(&self, values: &[K], next: &mut [K])
        requires values { length values.now ≡ length self.now.visits.now }
        requires next { length next.old ≡ length self.now.visits.now }
        ensures { (v : ℕ) → v < length self.now.visits.now → slice_index_or next.new v K.ops.zero ≡ round_at K.ops self.now.visits.now self.now.start.now values.now self.now.links.now v }
    {
        next.copy_from_slice(self.start);
        for link in self.links {
            self.bring(*link, values, next);
        }
    }

    /// At each visit the sum over all walks of at most as many links as there are visits. A round
    /// adds the walks of one link more; when a round changes nothing, no later one does. `next` is
    /// room for a round, and holds the sums too in the end.
    fn run(&self, sums: &mut [K], next: &mut [K])
        requires sums { length sums.old ≡ length self.now.visits.now }
        requires next { length next.old ≡ length self.now.visits.now }
        ensures twins { next.new ≡ sums.new }
        ensures sums { (v : ℕ) → v < length self.now.visits.now → slice_index_or sums.new v K.ops.zero ≡ sum_over K.ops self.now.visits.now link_from link_to self.now.links.now (λ u. slice_index_or self.now.start.now u K.ops.zero) (length self.now.visits.now) v }
    {
        sums.copy_from_slice(self.start);
        for _round in 0..self.visits.len() {
            self.round(sums, next);
            if settle(sums, next) {
                return;
            }
        }
    }
}

impl Net {
    /// At each visit the sum along the walks of the net, where `ways` says which edges of each
    /// crossing are taken; `spare` is room for a round, and holds the same in the end.
    pub(crate) fn sum<K: Kind>(
        &self,
        ways: &[Ways; MAX_CROSSINGS],
        start: &[K],
        sums: &mut [K],
        spare: &mut [K],
    )
        requires start { length start.now ≡ length (net_visits self.now) }
        requires sums { length sums.old ≡ length (net_visits self.now) }
        requires spare { length spare.old ≡ length (net_visits self.now) }
        ensures sums { sums.new ≡ map (sum_at K.ops (net_visits self.now) (net_crossings self.now) (ways_in ways.now) (starts_in K.ops.zero start.now)) (range_with_len 0 (length (net_visits self.now))) }
        ensures spare { spare.new ≡ sums.new }
    {
        let links = self.links(ways);
        let sum = Sum {
            visits: self.visits(),
            links: links.as_slice(),
            start,
        };
        sum.run(sums, spare);
    }

    /// The sum at one visit.
    pub(crate) fn sum_at<K: Kind>(
        &self,
        ways: &[Ways; MAX_CROSSINGS],
        start: &[K; MAX_ENTRIES],
        visit: usize,
    ) -> K
        requires { visit < length (net_visits self.now) }
        ensures { result ≡ sum_at K.ops (net_visits self.now) (net_crossings self.now) (ways_in ways.now) (starts_in K.ops.zero start.now) visit }
    {
        // Fixed memory has room for the most visits; the sum goes over those that there are.
        let count = self.visits().len();
        let (mut sums, mut spare) = (*start, *start);
        self.sum(
            ways,
            &start[..count],
            &mut sums[..count],
            &mut spare[..count],
        );
        sums[visit]
    }
}
