//! The text that floorlist prints.
#![tactic(auto)]

ghost use Rattle.std.specs.Prelude.{◌≡◌, Some, IfOk, length, string_bytes};
ghost use Rattle.std.specs.List.{range_with_len, flat_map};
ghost use Rattle.record.specs.Layout.{front};
ghost use Rattle.walk.specs.Edges.{crossing};
ghost use Rattle.graph.specs.Verdicts.{graph_draft, graph_visits, graph_crossings};
ghost use Rattle.listing.specs.Texts.{plan_line, carrier_line, crossing_line, refusal_line, graph_text, Listed};

use fault::kinds::GraphFault;
use fault::report::Report;
use graph::graph::Graph;
use graph::graph::reads::Outline;
use record::layout::split_record;
use std::alloc::{AllocError, Global};
use std::fmt;
use walk::crossing::Crossing;

/// The line of a graph's plan.
#[derive(Clone, Copy)]
struct PlanLine<'a>(&'a Graph);

impl<'a> fmt::Display for PlanLine<'a> {
    ghost output = { λ l. Some (plan_line (graph_draft l.0.now)) };

    fn fmt<W: fmt::Write>(&self, f: &mut fmt::Formatter<W>) -> fmt::Result {
        let Outline {
            width,
            height,
            carriers,
            entries,
        } = self.0.outline();
        writeln!(f, "plan {width} {height} {carriers} {entries}")
    }
}

/// A carrier's line.
#[derive(Clone, Copy)]
struct CarrierLine<'a> {
    graph: &'a Graph,
    carrier: u8,
}

impl<'a> fmt::Display for CarrierLine<'a> {
    ghost output = { λ l. Some (carrier_line (graph_draft l.graph.now) (graph_visits l.graph.now) (graph_crossings l.graph.now) l.carrier) };

    fn fmt<W: fmt::Write>(&self, f: &mut fmt::Formatter<W>) -> fmt::Result {
        let carrier = self.carrier;
        let visits = self.graph.visit_count(carrier);
        let earliest = self.graph.earliest(carrier).unwrap_or(0);
        let relies = self.graph.relies(carrier).unwrap_or(0);
        writeln!(
            f,
            "carrier {carrier} visits {visits} earliest {earliest} relies {relies}"
        )
    }
}

/// A crossing's line.
#[derive(Clone, Copy)]
struct CrossingLine {
    number: usize,
    crossing: Crossing,
}

impl fmt::Display for CrossingLine {
    ghost output = { λ l. Some (crossing_line l.number l.crossing) };

    fn fmt<W: fmt::Write>(&self, f: &mut fmt::Formatter<W>) -> fmt::Result {
        let CrossingLine { number, crossing } = *self;
        let Crossing {
            cell,
            first,
            second,
            two_way,
        } = crossing;
        let way = if two_way { "twoway" } else { "oneway" };
        writeln!(
            f,
            "crossing {number} cell {cell} first {first} second {second} {way}"
        )
    }
}

/// A line for each carrier of a graph.
#[derive(Clone, Copy)]
struct CarrierLines<'a>(&'a Graph);

impl<'a> fmt::Display for CarrierLines<'a> {
    ghost output = { λ l. Some (flat_map (carrier_line (graph_draft l.0.now) (graph_visits l.0.now) (graph_crossings l.0.now)) (range_with_len 0 (graph_draft l.0.now).carriers)) };

    fn fmt<W: fmt::Write>(&self, f: &mut fmt::Formatter<W>) -> fmt::Result {
        let graph = self.0;
        for carrier in 0..graph.outline().carriers {
            write!(f, "{}", CarrierLine { graph, carrier })?;
        }
        Ok(())
    }
}

/// A line for each crossing, numbered from 0.
#[derive(Clone, Copy)]
struct CrossingLines<'a>(&'a [Crossing]);

impl<'a> fmt::Display for CrossingLines<'a> {
    ghost output = { λ l. Some (flat_map (λ k. crossing_line k (crossing l.0.now k)) (range_with_len 0 (length l.0.now))) };

    fn fmt<W: fmt::Write>(&self, f: &mut fmt::Formatter<W>) -> fmt::Result {
        for (number, crossing) in self.0.iter().enumerate() {
            let crossing = *crossing;
            write!(f, "{}", CrossingLine { number, crossing })?;
        }
        Ok(())
    }
}

/// The lines of a plan and its graph.
#[derive(Clone, Copy)]
struct GraphText<'a>(&'a Graph);

impl<'a> fmt::Display for GraphText<'a> {
    ghost output = { λ t. Some (graph_text (graph_draft t.0.now) (graph_visits t.0.now) (graph_crossings t.0.now)) };

    fn fmt<W: fmt::Write>(&self, f: &mut fmt::Formatter<W>) -> fmt::Result {
        let crossings = self.0.crossings();
        write!(
            f,
            "{}{}{}",
            PlanLine(self.0),
            CarrierLines(self.0),
            CrossingLines(crossings)
        )
    }
}

/// The line of a refusal.
#[derive(Clone, Copy)]
struct RefusalLine(GraphFault);

impl fmt::Display for RefusalLine {
    ghost output = { λ l. Some (refusal_line l.0) };

    fn fmt<W: fmt::Write>(&self, f: &mut fmt::Formatter<W>) -> fmt::Result {
        writeln!(f, "refused {}", Report::from(self.0))
    }
}

/// The record at the front of an input.
fn record_in(input: &[u8]) -> &[u8]
    ensures { result.now ≡ front input.now }
{
    let (record, _) = split_record(input);
    record
}

/// The text for floorlist's input: a record and what follows it.
pub fn list(heap: Global, input: &[u8]) -> Result<String, AllocError>
    ensures { IfOk result (λ text. Listed input.now (string_bytes text)) }
{
    let mut graph = Graph::new();
    // No `map_or_else`, which would have a refusal before the text of a plan.
    match graph.load(record_in(input)) {
        Ok(()) => format!(in heap; "{}", GraphText(&graph)),
        Err(fault) => format!(in heap; "{}", RefusalLine(fault)),
    }
}
