//! The graph.
ghost use Rattle.std.specs.Prelude.{◌≡◌, IfOk, length};
ghost use Rattle.nest.specs.Bodies.{nest_statements};
ghost use Rattle.nest.specs.View.{nest_of};
ghost use Rattle.dependence_graph.specs.nest_graph.Graph.{IsGraphOf};
ghost use Rattle.dependence_graph.specs.nest_graph.Ready.{IsReady};

use crate::dep_graph::lines::Dependences;
use crate::graphs::Graph;
use crate::nest_references::occurrences_of;
use nest::Nest;
use nest::statement_loops::statements_of;
use std::alloc::Global;
use tree::Memory;

// How many statements there are. More than there are numbers don't fit into memory.
fn statement_count(alloc: Global, nest: &Nest) -> Result<u32, Memory>
    ensures { IfOk result (λ count. count ≡ length (nest_statements (nest_of nest.now))) }
{
    let all = statements_of(alloc, nest)?;
    match u32::try_from(all.len()) {
        Ok(count) => Ok(count),
        Err(_) => Err(Memory),
    }
}

/// The dependence graph of a nest whose loops go from 1 by 1. Statements go by their places in the order of the text,
/// and a statement's references by theirs, its left side, in the order of its text. Lines come in the order of the
/// references, and then of the vectors.
pub fn graph(alloc: Global, nest: &Nest) -> Result<Graph, Memory>
    requires { IsReady (nest_of nest.now) }
    ensures { IfOk result (λ g. IsGraphOf (nest_of nest.now) g) }
{
    let all = occurrences_of(alloc, nest)?;
    let mut lines = Dependences::new(alloc);
    lines.add_table(alloc, all.as_slice())?;
    let Dependences { edges, dropped } = lines;
    Ok(Graph {
        stmts: statement_count(alloc, nest)?,
        edges,
        dropped,
    })
}
