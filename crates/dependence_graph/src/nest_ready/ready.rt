//! Whether a nest can be tested.
ghost use Rattle.std.specs.Prelude.{◌↔◌, All, IfOk, IsTrue};
ghost use Rattle.nest.specs.View.{nest_of};
ghost use Rattle.dependence_graph.specs.nest_graph.Ready.{IsReady, IsReadyStatement};
ghost use Rattle.nest.specs.statement_loops.Standings.{standing_of};

use crate::nest_ready::conjunctions::{all_true, both_true};
use crate::nest_ready::numbers::{are_distinct, numbers_of};
use crate::nest_ready::references::{all_elements, all_references, have_ranks};
use crate::nest_ready::trips::have_trips;
use crate::nest_references::references_of;
use nest::Nest;
use nest::statement_loops::{Standing, statements_of};
use std::alloc::Global;
use tree::Memory;

fn is_ready_statement(alloc: Global, standing: &Standing) -> Result<bool, Memory>
    ensures { IfOk result (λ b. IsTrue b ↔ IsReadyStatement (standing_of standing.now)) }
{
    if standing.loops.len() > 7 {
        return Ok(false);
    }
    let items = references_of(alloc, standing)?;
    let trips = have_trips(0, standing.loops.as_slice());
    let elements = all_elements(items.as_slice());
    Ok(both_true(trips, elements))
}

fn are_ready(alloc: Global, all: &[Standing]) -> Result<bool, Memory>
    ensures { IfOk result (λ b. IsTrue b ↔ All (λ s. IsReadyStatement (standing_of s)) all.now) }
{
    for standing in all {
        if !is_ready_statement(alloc, standing)? {
            return Ok(false);
        }
    }
    Ok(true)
}

/// Whether a nest can be tested for dependences: its loops go from 1 by 1 to linear trips, at most seven in one another
/// and each with a number of its own; its references are scalars and elements of arrays of at most seven dimensions,
/// one name always with as many subscripts; and it has at most 65536 symbols.
pub fn is_ready(alloc: Global, nest: &Nest) -> Result<bool, Memory>
    ensures { IfOk result (λ b. IsTrue b ↔ IsReady (nest_of nest.now)) }
{
    let all = statements_of(alloc, nest)?;
    let numbers = numbers_of(alloc, nest)?;
    let items = all_references(alloc, all.as_slice())?;
    if nest.symbols.len() > 1 << 16 {
        return Ok(false);
    }
    let distinct = are_distinct(numbers.as_slice());
    let ranks = have_ranks(items.as_slice());
    let ready = are_ready(alloc, all.as_slice())?;
    Ok(all_true(distinct, ranks, ready))
}
