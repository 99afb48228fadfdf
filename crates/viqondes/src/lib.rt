//! The call for C, as a function; viqondes_c exports it under its symbol.
#![tactic(auto)]

ghost use Rattle.std.specs.Prelude.{◌≡◌};
ghost use Rattle.viqondes.specs.Numbers.{answer_number, FaultNumber};

use fault::kinds::GraphFault;
use fault::report::Report;
use graph::graph::Graph;

// A number and no enum: it is what C is told.
fn number(answer: Result<(), GraphFault>) -> u8
    ensures { result ≡ answer_number answer }
{
    answer.map_or_else(|fault| Report::from(fault).number, |()| 0)
}

/// The number of the fault of a plan record or of its graph, or 0 where there is none.
pub fn viqondes_plan_fault(bytes: &[u8]) -> u8
    ensures { FaultNumber bytes.now result }
{
    let mut graph = Graph::new();
    number(graph.load(bytes))
}
