ghost use Rattle.std.specs.Prelude.{◌≡◌, ◌<◌, [], length, None, MatchResult, OnErr};
ghost use Rattle.fault.specs.declared.kinds.GraphFault.TheVariants.{Crossings};
ghost use Rattle.plan.specs.Plans.{plan_draft};
ghost use Rattle.visit.specs.Visits.{plan_visits};
ghost use Rattle.visit.specs.Crossings.{plan_crossings};
ghost use Rattle.walk.specs.Ways.{NoCircle};
ghost use Rattle.graph.specs.Graphs.{held};
ghost use Rattle.graph.specs.Verdicts.{graph_draft, graph_visits, graph_crossings, GraphJudged, GraphOnly, GraphIs, graph_told, made_told};

use super::Graph;
use crate::net::Net;
use fault::kinds::GraphFault;
use plan::accepted::Plan;

/// The graph of a plan, unless it has too many crossings.
// No `TryFrom`, nor for the next: as a public call it would promise `load`'s five clauses once more.
fn build(plan: Plan) -> Result<Graph, GraphFault>
    ensures { MatchResult result (λ g. graph_draft g ≡ plan_draft plan) (λ f. (f ≡ Crossings) × (1024 < length (plan_crossings (plan_visits (plan_draft plan))))) }
{
    let net = Net::of(&plan).map_err(|_full| GraphFault::Crossings)?;
    Ok(Graph {
        plan: Some(plan),
        net,
    })
}

/// The graph in a record's bytes, or the first fault of the record.
fn read_graph(bytes: &[u8]) -> Result<Graph, GraphFault>
    ensures { GraphJudged bytes.now (made_told result) }
{
    build(Plan::try_from(bytes)?)
}

/// Puts a graph that was made in the place of another, or leaves that as it was.
fn take_over(graph: &mut Graph, made: Result<Graph, GraphFault>) -> Result<(), GraphFault>
    ensures told { graph_told result graph.new ≡ made_told made }
    ensures kept { OnErr result (graph.new ≡ graph.old) }
{
    *graph = made?;
    Ok(())
}

impl Graph {
    /// The graph of no plan: it has no carriers.
    pub fn new() -> Graph
        ensures draft { graph_draft result ≡ held None }
        ensures visits { graph_visits result ≡ [] }
        ensures crossings { graph_crossings result ≡ [] }
    {
        Graph {
            plan: None,
            net: Net::new(),
        }
    }

    /// Makes this the graph of the plan in a record's bytes, or answers the first fault of the
    /// record and leaves the graph as it was.
    pub fn load(&mut self, bytes: &[u8]) -> Result<(), GraphFault>
        ensures judged { GraphJudged bytes.now (graph_told result self.new) }
        ensures only { GraphOnly bytes.now (graph_told result self.new) }
        ensures kept { OnErr result (self.new ≡ self.old) }
        ensures built { GraphIs self.new }
        ensures acyclic { NoCircle (graph_visits self.new) (graph_crossings self.new) }
    {
        take_over(self, read_graph(bytes))
    }
}
