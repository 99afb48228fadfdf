ghost use Rattle.std.specs.Prelude.{◌≡◌, ℕ, ◌-◌, ◌<◌, ◌≤◌, ◌⊎◌, false, length, IsTrue, IfSome, MatchOption, count_ones};
ghost use Rattle.record.specs.Paths.{paths_draft};
ghost use Rattle.visit.specs.Visits.{first_visits, last_visit};
ghost use Rattle.walk.specs.declared.crossing.Ways.{Ways};
ghost use Rattle.walk.specs.Walks.{ListsWalks};
ghost use Rattle.graph.specs.Inputs.{ways_in};
ghost use Rattle.graph.specs.Verdicts.{graph_draft, graph_visits, graph_crossings};
ghost use Rattle.graph.specs.Figures.{Summed, sums_of, earliest_step, relied_on, Arrives};

use super::Graph;
use fault::kinds::RoomFault;
use record::paths::Paths;
use walk::crossing::{MAX_CROSSINGS, Ways};
use walk::kinds::{CarrierSet, Earliest, Kind};

/// How many visits the carriers before a carrier make.
fn visits_before(paths: &Paths, carrier: u8) -> usize
    ensures { result ≡ length (first_visits (paths_draft paths.now).entries carrier) }
{
    (0..carrier)
        .map(|lower| usize::from(paths.visits(lower)))
        .sum()
}

/// The number of a carrier's last visit: the visits of the carriers before it come first.
fn last_visit(paths: &Paths, carrier: u8) -> usize
    ensures { result ≡ last_visit (paths_draft paths.now) carrier }
{
    (visits_before(paths, carrier) + usize::from(paths.visits(carrier))).saturating_sub(1)
}

/// How many carriers are in a set beside the one that it is for.
fn others(set: CarrierSet) -> u32
    ensures { result ≡ count_ones set.bits - 1 }
{
    set.bits.count_ones().saturating_sub(1)
}

/// Whether one of three lengths is below the length needed.
fn is_short(needed: usize, start: usize, sums: usize, spare: usize) -> bool
    ensures short { IsTrue result → (start < needed) ⊎ ((sums < needed) ⊎ (spare < needed)) }
    ensures start { result ≡ false → needed ≤ start }
    ensures sums { result ≡ false → needed ≤ sums }
    ensures spare { result ≡ false → needed ≤ spare }
{
    start.min(sums).min(spare) < needed
}

impl Graph {
    /// At each visit the sum along the graph's walks of at most as many edges as there are visits,
    /// each walk carrying the starting value of its first visit along its steps; `ways` says which
    /// edges of each crossing are taken, beside those along the carriers' paths. The sums go to the
    /// front of `sums`, and of `spare`, which is room to compute in. A list that is shorter than the
    /// visits is refused, and nothing is written.
    pub fn sum<K: Kind>(
        &self,
        ways: &[Ways; MAX_CROSSINGS],
        start: &[K],
        sums: &mut [K],
        spare: &mut [K],
    ) -> Result<(), RoomFault>
        ensures summed { Summed (length (graph_visits self.now)) (sums_of K.ops (graph_visits self.now) (graph_crossings self.now) (ways_in ways.now) start.now) start.now sums.old sums.new spare.old spare.new result }
        ensures walks { (taken : ℕ → Ways) (k v : ℕ) → ListsWalks (graph_visits self.now) (graph_crossings self.now) taken k v }
    {
        let count = self.visits().len();
        if is_short(count, start.len(), sums.len(), spare.len()) {
            return Err(RoomFault {
                needed: count as u16,
            });
        }
        self.net.sum(
            ways,
            &start[..count],
            &mut sums[..count],
            &mut spare[..count],
        );
        Ok(())
    }

    /// The earliest step at which a carrier can come to its last visit, over path and plan edges;
    /// none for a carrier that the plan lacks.
    pub fn earliest(&self, carrier: u8) -> Option<u16>
        ensures answer { result ≡ earliest_step (graph_draft self.now) (graph_visits self.now) (graph_crossings self.now) carrier }
        ensures arrives { carrier < (graph_draft self.now).carriers → Arrives (graph_draft self.now) (graph_visits self.now) (graph_crossings self.now) carrier }
    {
        let last = self.last_visit_of(carrier)?;
        self.net.plan_sum::<Earliest>(last).step
    }

    /// How many other carriers a carrier relies on to come to its last visit; none for a carrier
    /// that the plan lacks.
    pub fn relies(&self, carrier: u8) -> Option<u32>
        ensures answer { result ≡ relied_on (graph_draft self.now) (graph_visits self.now) (graph_crossings self.now) carrier }
        ensures arrives { carrier < (graph_draft self.now).carriers → Arrives (graph_draft self.now) (graph_visits self.now) (graph_crossings self.now) carrier }
    {
        let last = self.last_visit_of(carrier)?;
        Some(others(self.net.plan_sum(last)))
    }

    /// The number of a carrier's last visit, if the plan has the carrier.
    fn last_visit_of(&self, carrier: u8) -> Option<usize>
        ensures last { MatchOption result ((graph_draft self.now).carriers ≤ carrier) (λ v. (carrier < (graph_draft self.now).carriers) × (v ≡ last_visit (graph_draft self.now) carrier)) }
        ensures there { IfSome result (λ v. v < length (graph_visits self.now)) }
    {
        let paths = self.plan.as_ref()?.paths();
        (carrier < paths.header().carriers).then(|| last_visit(paths, carrier))
    }
}
