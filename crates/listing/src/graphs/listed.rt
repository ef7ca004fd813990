//! The lines of a nest, and of a loop that is kept.
ghost use Rattle.std.specs.Prelude.{◌≡◌, ◌++◌, ◌≤◌, IfOk, OnOk, drop, length, map, take};
ghost use Rattle.f90_print.specs.Notes.{line_text};
ghost use Rattle.nest.specs.View.{nest_of};
ghost use Rattle.nest.specs.statement_loops.Standings.{standing_of};
ghost use Rattle.listing.specs.graphs.Lines.{KeepEntry, NestEntry, entry_text};
ghost use Rattle.listing.specs.graphs.Listing.{cycle_entry, dependence_entries, drop_entry, edge_entry, hold_entries};
ghost use Rattle.listing.specs.graphs.Listing.{lines_of_entries, lines_of_entry, listing_of};
ghost use Rattle.listing.specs.graphs.Order.{before, not_before};

use crate::graphs::dependences::{cycle_text, drop_text, edge_text, hold_text};
use crate::graphs::order::comes_before;
use crate::graphs::pieces::ListingLines;
use crate::graphs::texts::{push, push_count};
use dependence_graph::graphs::{Cycle, Dropped, Edge, Graph, Hold};
use nest::Nest;
use nest::statement_loops::{Standing, statements_of};
use std::alloc::Global;
use tree::{Line, Memory, Seq};

#[tactic(auto, unfolding(crate::specs::graphs::Lines::entry_text))]
fn nest_text(alloc: Global, number: u32, line: u32) -> Result<Vec<u8>, Memory>
    ensures { IfOk result (λ text. text.items ≡ entry_text (NestEntry number line)) }
{
    let mut text = Vec::from_slice(alloc, b"NEST ")?;
    push_count(&mut text, number as usize)?;
    push(&mut text, b" LINE ")?;
    push_count(&mut text, line as usize)?;
    Ok(text)
}

// How many of the drops come before the edge.
fn count_before(drops: &[Dropped], edge: &Edge) -> usize
    ensures fit { result ≤ length drops.now }
    ensures before { take result drops.now ≡ before edge.now drops.now }
    ensures behind { drop result drops.now ≡ not_before edge.now drops.now }
{
    let mut count = 0;
    'counting: while count < drops.len() && comes_before(&drops[count], edge) {
        count += 1;
    }
    count
}

impl ListingLines {
    fn add_drops(&mut self, alloc: Global, drops: &[Dropped]) -> Result<(), Memory>
        ensures { OnOk result (map line_text self.new.list ≡ map line_text self.old.list
            ++ lines_of_entries (map drop_entry drops.now)) }
    {
        for drop in drops {
            self.add(alloc, drop_text(alloc, drop)?.as_slice())?;
        }
        Ok(())
    }

    // Edges and drops as one list in order.
    fn add_graph(
        &mut self,
        alloc: Global,
        standings: &Seq<Standing>,
        graph: &Graph,
    ) -> Result<(), Memory>
        ensures { OnOk result (map line_text self.new.list ≡ map line_text self.old.list
            ++ lines_of_entries (dependence_entries (map standing_of standings.now) graph.now)) }
    {
        let mut drops = graph.dropped.as_slice();
        for edge in graph.edges.as_slice() {
            let (before, others) = drops.split_at(count_before(drops, edge));
            self.add_drops(alloc, before)?;
            self.add(alloc, edge_text(alloc, standings, edge)?.as_slice())?;
            drops = others;
        }
        self.add_drops(alloc, drops)?;
        Ok(())
    }

    fn add_holds(&mut self, alloc: Global, holds: &Seq<Hold>) -> Result<(), Memory>
        ensures { OnOk result (map line_text self.new.list ≡ map line_text self.old.list
            ++ lines_of_entries (hold_entries holds.now)) }
    {
        for hold in holds.as_slice() {
            self.add(alloc, hold_text(alloc, *hold)?.as_slice())?;
        }
        Ok(())
    }

    fn add_cycles(&mut self, alloc: Global, cycles: &Seq<Cycle>) -> Result<(), Memory>
        ensures { OnOk result (map line_text self.new.list ≡ map line_text self.old.list
            ++ lines_of_entries (map cycle_entry cycles.now)) }
    {
        for cycle in cycles.as_slice() {
            self.add(alloc, cycle_text(alloc, cycle)?.as_slice())?;
        }
        Ok(())
    }
}

/// The listing of a nest with this number, its dependence graph, its holds and its cycles. The trip of a loop is its
/// last iteration, since the loops of the nest go from 1 by 1. The iterations of an edge's pair are those of the loops
/// round its statements. Statements are listed by their numbers; the graph has their places.
pub fn lines(
    alloc: Global,
    nest: &Nest,
    number: u32,
    graph: &Graph,
    holds: &Seq<Hold>,
    cycles: &Seq<Cycle>,
) -> Result<Seq<Line>, Memory>
    ensures { IfOk result (λ all. map line_text all
        ≡ listing_of (nest_of nest.now) number graph.now holds.now cycles.now) }
{
    let standings = statements_of(alloc, nest)?;
    let mut all = ListingLines {
        list: Seq::new(alloc),
    };
    all.add(alloc, nest_text(alloc, number, nest.line)?.as_slice())?;
    all.add_loops(alloc, 0, &nest.body)?;
    all.add_statements(alloc, &standings)?;
    all.add_graph(alloc, &standings, graph)?;
    all.add_holds(alloc, holds)?;
    all.add_cycles(alloc, cycles)?;
    Ok(all.list)
}

/// The line of a loop that is kept as it is, with its line in the source and the word of the reason.
#[tactic(auto, unfolding(crate::specs::graphs::Lines::entry_text))]
pub fn kept_lines(alloc: Global, line: u32, reason: &[u8]) -> Result<Seq<Line>, Memory>
    ensures { IfOk result (λ all. map line_text all ≡ lines_of_entry (KeepEntry line reason.now)) }
{
    let mut text = Vec::from_slice(alloc, b"KEEP ")?;
    push_count(&mut text, line as usize)?;
    push(&mut text, b" ")?;
    push(&mut text, reason)?;
    let mut all = ListingLines {
        list: Seq::new(alloc),
    };
    all.add(alloc, text.as_slice())?;
    Ok(all.list)
}
