//! The statements of nests in classes, level by level.
ghost use Rattle.std.specs.Prelude.{IsTrue};
ghost use Rattle.components.specs.Reachability.{AreBelow};

use crate::texts::{push, push_count};
use components::components;
use dependence_graph::dep_graph::graph;
use dependence_graph::graphs::Edge;
use dependence_graph::nest_ready::is_ready;
use nest::Nest;
use nest::statement_loops::statements_of;
use std::alloc::Global;
use tree::Memory;

// Whether all numbers of the pairs are below `count`.
fn are_below(count: usize, pairs: &[(usize, usize)]) -> bool
    ensures { IsTrue result → AreBelow count pairs.now }
{
    let Some((first, rest)) = pairs.split_first() else {
        return true;
    };
    first.0 < count && first.1 < count && are_below(count, rest)
}

// The most loops round a statement of the nest.
fn depth_of(alloc: Global, nest: &Nest) -> Result<usize, Memory> {
    let mut depth = 0;
    for standing in statements_of(alloc, nest)?.as_slice() {
        depth = standing.loops.len().max(depth);
    }
    Ok(depth)
}

// The statements that the dependences join that no loop outside the level carries.
fn pairs_at(alloc: Global, edges: &[Edge], level: usize) -> Result<Vec<(usize, usize)>, Memory> {
    let mut pairs = Vec::new(alloc);
    for edge in edges {
        if edge.level == 0 || usize::from(edge.level) >= level {
            pairs.push((edge.from.stmt as usize, edge.to.stmt as usize))?;
        }
    }
    Ok(pairs)
}

fn push_class(out: &mut Vec<u8>, class: &[usize]) -> Result<(), Memory> {
    for (place, number) in class.iter().enumerate() {
        push(out, if place > 0 { b",S" } else { b" {S" })?;
        push_count(out, u32::try_from(number.saturating_add(1)).unwrap_or(0))?;
    }
    push(out, b"}")
}

// Adds the classes of so many statements.
fn push_classes(
    out: &mut Vec<u8>,
    alloc: Global,
    count: usize,
    pairs: &[(usize, usize)],
) -> Result<(), Memory> {
    if !are_below(count, pairs) {
        return push(out, b" no statements");
    }
    for class in components(alloc, count, pairs)?.members.as_slice() {
        push_class(out, class.as_slice())?;
    }
    Ok(())
}

fn push_level(
    out: &mut Vec<u8>,
    alloc: Global,
    count: usize,
    edges: &[Edge],
    level: usize,
) -> Result<(), Memory> {
    let pairs = pairs_at(alloc, edges, level)?;
    push(out, b"level ")?;
    push_count(out, u32::try_from(level).unwrap_or(0))?;
    push(out, b":")?;
    push_classes(out, alloc, count, pairs.as_slice())?;
    push(out, b"\n")
}

/// Adds for each level the statements of a nest in classes, within each of which dependences at work at that level lead
/// to one another, in the order in which they may run.
pub(crate) fn push_components(out: &mut Vec<u8>, alloc: Global, nest: &Nest) -> Result<(), Memory> {
    let depth = depth_of(alloc, nest)?;
    if !is_ready(alloc, nest)? {
        return push(out, b"not ready\n");
    }
    let graph = graph(alloc, nest)?;
    for outer in 0..depth {
        push_level(
            out,
            alloc,
            graph.stmts as usize,
            graph.edges.as_slice(),
            outer + 1,
        )?;
    }
    Ok(())
}
