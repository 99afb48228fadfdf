ghost use Rattle.std.specs.Prelude.{◌≡◌, ℕ, ◌*◌, ◌^◌, ◌<◌, ◌≤◌, true, false, length, if◌then◌else◌, slice_index_or};
ghost use Rattle.std.specs.Mem.{type_size};
ghost use Rattle.walk.specs.Edges.{no_visit, is_start};
ghost use Rattle.graph.specs.Inputs.{ways_in};
ghost use Rattle.graph.specs.Nets.{net_visits, net_crossings};
ghost use Rattle.graph.specs.Figures.{plan_ways, plan_sum};

use crate::net::Net;
use record::MAX_ENTRIES;
use walk::crossing::{MAX_CROSSINGS, Ways};
use walk::kinds::Starting;

/// A crossing's plan edge, and not its reversed one.
fn plan_way() -> Ways
    ensures { result ≡ record { plan = true; reversed = false } }
{
    Ways {
        plan: true,
        reversed: false,
    }
}

/// All plan edges, and no reversed one.
pub(crate) fn plan_ways() -> [Ways; MAX_CROSSINGS]
    ensures { (k : ℕ) → k < 1024 → ways_in result k ≡ plan_ways k }
{
    [plan_way(); MAX_CROSSINGS]
}

impl Net {
    /// What starts at a visit: on each carrier's first visit the kind's own, else zero.
    fn start<K: Starting>(&self, visit: usize) -> K
        ensures there { visit < length (net_visits self.now) → result ≡ (if is_start (net_visits self.now) visit then K.starting (slice_index_or (net_visits self.now) visit no_visit) else K.Kind.ops.zero) }
        ensures past { length (net_visits self.now) ≤ visit → result ≡ K.Kind.ops.zero }
    {
        match self.visits().get(visit) {
            Some(first) if self.is_start(visit) => K::start(*first),
            _ => K::zero(),
        }
    }

    /// What starts at each visit; zero past the visits, where no time goes.
    fn starts<K: Starting>(&self) -> [K; MAX_ENTRIES]
        requires { 512 * type_size K.row < 2 ^ 63 }
        ensures there { (v : ℕ) → v < length (net_visits self.now) → slice_index_or result v K.Kind.ops.zero ≡ (if is_start (net_visits self.now) v then K.starting (slice_index_or (net_visits self.now) v no_visit) else K.Kind.ops.zero) }
        ensures past { (v : ℕ) → length (net_visits self.now) ≤ v → slice_index_or result v K.Kind.ops.zero ≡ K.Kind.ops.zero }
    {
        let mut starts = [K::zero(); MAX_ENTRIES];
        for (visit, value) in starts[..self.visits().len()].iter_mut().enumerate() {
            *value = self.start(visit);
        }
        starts
    }

    /// The sum at a visit, over path and plan edges, of what starts on each carrier's first visit.
    pub(crate) fn plan_sum<K: Starting>(&self, visit: usize) -> K
        requires fits { 512 * type_size K.row < 2 ^ 63 }
        requires there { visit < length (net_visits self.now) }
        ensures { result ≡ plan_sum K.Kind.ops K.starting (net_visits self.now) (net_crossings self.now) visit }
    {
        self.sum_at(&plan_ways(), &self.starts(), visit)
    }
}
