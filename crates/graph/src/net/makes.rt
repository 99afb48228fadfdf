ghost use Rattle.std.specs.Prelude.{◌≡◌, [], ◌<◌, length, MatchResult, slice_set};
ghost use Rattle.plan.specs.Plans.{plan_draft};
ghost use Rattle.visit.specs.Visits.{plan_visits};
ghost use Rattle.visit.specs.Crossings.{plan_crossings};
ghost use Rattle.walk.specs.Edges.{crossing};
ghost use Rattle.graph.specs.Graphs.{GraphOf};
ghost use Rattle.graph.specs.Nets.{net_visits, net_crossings};

use super::Net;
use fixed::list::Bounded;
use fixed::list::methods::Full;
use plan::accepted::Plan;
use visit::crossings::crossings_of;
use visit::visits::visits_of;
use walk::crossing::Crossing;
use walk::visit::{NO_VISIT, Visit};

impl Net {
    /// No visits.
    pub(crate) fn new() -> Net
        ensures visits { net_visits result ≡ [] }
        ensures crossings { net_crossings result ≡ [] }
    {
        Net {
            visits: Bounded::new(NO_VISIT),
            crossings: Bounded::new(Crossing::default()),
        }
    }

    /// The visits of a plan and their crossings, unless these are too many.
    // No `TryFrom`, as for the graph that it is a step of.
    pub(crate) fn of(plan: &Plan) -> Result<Net, Full>
        ensures { MatchResult result (λ net. GraphOf (plan_draft plan.now) (net_visits net) (net_crossings net)) (λ _. 1024 < length (plan_crossings (plan_visits (plan_draft plan.now)))) }
    {
        let visits = visits_of(plan.paths());
        let crossings = crossings_of(&visits)?;
        let mut net = Net { visits, crossings };
        net.test_all();
        Ok(net)
    }

    /// Says of a crossing whether it is two-way.
    pub(crate) fn set_two_way(&mut self, tested: usize, two_way: bool)
        requires { tested < length (net_crossings self.old) }
        ensures visits { net_visits self.new ≡ net_visits self.old }
        ensures crossings { net_crossings self.new ≡ slice_set (net_crossings self.old) tested (record (crossing (net_crossings self.old) tested) { two_way = two_way }) }
    {
        let crossing = self.crossings()[tested];
        self.crossings.set(
            tested,
            Crossing {
                two_way,
                ..crossing
            },
        );
    }
}
