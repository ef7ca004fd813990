//! How many statements and references a nest has, and what was made in a program.
ghost use Rattle.std.specs.Prelude.{◌+◌, ◌<◌, ◌^◌, All, OnOk, length};
ghost use Rattle.dependence_graph.specs.nest_graph.References.{references_of};
ghost use Rattle.listing.specs.programs.Counted.{AreCounted};
ghost use Rattle.nest.specs.View.{nest_of};
ghost use Rattle.nest.specs.statement_loops.Standings.{standing_of};

use dependence_graph::nest_references::references_of;
use nest::Nest;
use nest::statement_loops::{Standing, statements_of};
use std::alloc::Global;
use tree::Memory;

/// How many masks and copies were made so far in the program.
#[derive(Clone, Copy)]
pub struct Counts {
    pub masks: u32,
    pub copies: u32,
}

// More than there are numbers, which count from 1, don't fit into memory.
fn check_count(count: usize) -> Result<(), Memory>
    ensures { OnOk result (count + 1 < 2 ^ 32) }
{
    if count < u32::MAX as usize {
        Ok(())
    } else {
        Err(Memory)
    }
}

fn check_references(alloc: Global, all: &[Standing]) -> Result<(), Memory>
    ensures { OnOk result (All (λ s. length (references_of (standing_of s)) + 1 < 2 ^ 32) all.now) }
{
    for standing in all {
        let references = references_of(alloc, standing)?;
        check_count(references.len())?;
    }
    Ok(())
}

/// Counts the statements of a nest, and the references of each.
pub(crate) fn check_counts(alloc: Global, nest: &Nest) -> Result<(), Memory>
    ensures { OnOk result (AreCounted (nest_of nest.now)) }
{
    let all = statements_of(alloc, nest)?;
    check_count(all.len())?;
    check_references(alloc, all.as_slice())
}
