ghost use Rattle.std.specs.Prelude.{◌≡◌, map, length};
ghost use Rattle.visit.specs.Visits.{plan_visits};
ghost use Rattle.visit.specs.Crossings.{plan_crossings};
ghost use Rattle.graph.specs.Graphs.{held, one_way, AllTested};
ghost use Rattle.graph.specs.Nets.{net_visits, net_crossings};

use crate::net::Net;
use plan::accepted::Plan;

pub mod answers;
pub mod loads;
pub mod reads;

/// The temporal plan graph of an accepted plan, or of no plan and no carriers.
// Clauses name its plan, visits and crossings one by one, since the definitions speak of any visits
// and crossings: that a plan has no other graph could not be said else. No model, as of a net.
#[derive(Clone, Copy)]
pub struct Graph {
    plan: Option<Plan>,
    net: Net,
    ghost visited: { net_visits net ≡ plan_visits (held plan) },
    ghost crossed: { map one_way (net_crossings net) ≡ plan_crossings (net_visits net) },
    ghost tested: { ∥ AllTested (net_visits net) (net_crossings net) (length (net_crossings net)) ∥₁ },
}
