//! Nests whose loops go from 1 by 1.
use crate::texts::push;
use dependence_graph::graphs::Graph;
use f90_print::print90;
use listing::graphs::lines;
use nest::Nest;
use std::alloc::Global;
use tree::{Memory, Program90, Seq};

/// Adds the loops and the statements of a nest, and as a program what runs after it.
pub(crate) fn push_normal(out: &mut Vec<u8>, alloc: Global, nest: &Nest) -> Result<(), Memory> {
    let graph = Graph {
        stmts: 0,
        edges: Seq::new(alloc),
        dropped: Seq::new(alloc),
    };
    let (holds, cycles) = (Seq::new(alloc), Seq::new(alloc));
    let notes = lines(alloc, nest, nest.number, &graph, &holds, &cycles)?;
    let after = Program90 {
        name: None,
        decls: Seq::new(alloc),
        body: nest.after.copy(alloc)?,
    };
    push(out, print90(alloc, &after, &notes)?.as_slice())
}
