ghost use Rattle.std.specs.Prelude.{◌≡◌, ◌<◌, length};
ghost use Rattle.walk.specs.Edges.{has_next, is_start};
ghost use Rattle.graph.specs.Nets.{net_visits, net_crossings};

use super::Net;
use walk::crossing::Crossing;
use walk::visit::Visit;

impl Net {
    /// The visits, by carrier and then by step.
    pub(crate) fn visits(&self) -> &[Visit]
        ensures { result.now ≡ net_visits self.now }
    {
        self.visits.as_slice()
    }

    /// The crossings, by first visit and then by second.
    pub(crate) fn crossings(&self) -> &[Crossing]
        ensures { result.now ≡ net_crossings self.now }
    {
        self.crossings.as_slice()
    }

    /// Whether a visit is its carrier's first.
    pub(crate) fn is_start(&self, visit: usize) -> bool
        requires { visit < length (net_visits self.now) }
        ensures { result ≡ is_start (net_visits self.now) visit }
    {
        let visits = self.visits();
        visit == 0 || visits[visit - 1].carrier != visits[visit].carrier
    }

    /// Whether a visit's carrier goes on from it; the next visit is then the carrier's.
    pub(crate) fn has_next(&self, visit: u16) -> bool
        ensures { result ≡ has_next (net_visits self.now) visit }
    {
        let visit = usize::from(visit);
        let visits = self.visits();
        visits
            .get(visit + 1)
            .is_some_and(|next| next.carrier == visits[visit].carrier)
    }
}
