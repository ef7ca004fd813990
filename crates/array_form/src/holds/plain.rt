//! Which statements and nests may be asked about.
ghost use Rattle.std.specs.Prelude.{◌↔◌, ◌≤◌, All, IfOk, IsTrue, length, map};
ghost use Rattle.nest.specs.View.{nest_of};
ghost use Rattle.nest.specs.statement_loops.Standings.{standing_of};
ghost use Rattle.array_form.specs.holds.Plain.{HasFewLoops, IsPlainNest, IsPlainStatement};

use nest::Nest;
use nest::statement_loops::{Standing, statements_of};
use std::alloc::Global;
use tree::Memory;

/// Whether there is a statement with this number, in at most seven loops, in a nest of at most 65536 symbols.
pub fn is_plain_statement(alloc: Global, s: u32, nest: &Nest) -> Result<bool, Memory>
    ensures { IfOk result (λ b. IsTrue b ↔ IsPlainStatement (nest_of nest.now) s) }
{
    let all = statements_of(alloc, nest)?;
    let place = s as usize;
    if place < 1 || place > all.len() || nest.symbols.len() > 1 << 16 {
        return Ok(false);
    }
    Ok(all.as_slice()[place - 1].loops.len() <= 7)
}

fn have_few_loops(all: &[Standing]) -> bool
    ensures { IsTrue result ↔ All HasFewLoops (map standing_of all.now) }
{
    let Some((first, rest)) = all.split_first() else {
        return true;
    };
    if first.loops.len() > 7 {
        return false;
    }
    have_few_loops(rest)
}

/// Whether the nest has at most 4294967295 statements, each in at most seven loops, and at most 65536 symbols.
pub fn is_plain_nest(alloc: Global, nest: &Nest) -> Result<bool, Memory>
    ensures { IfOk result (λ b. IsTrue b ↔ IsPlainNest (nest_of nest.now)) }
{
    let all = statements_of(alloc, nest)?;
    if all.len() > u32::MAX as usize || nest.symbols.len() > 1 << 16 {
        return Ok(false);
    }
    Ok(have_few_loops(all.as_slice()))
}
