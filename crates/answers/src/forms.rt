//! The array forms of the statements of nests, level by level.
ghost use Rattle.std.specs.Prelude.{◌≡◌, IfOk, IsTrue, length};
ghost use Rattle.nest.specs.View.{nest_of};
ghost use Rattle.array_form.specs.holds.Statements.{statement_at};
ghost use Rattle.array_form.specs.holds.Plain.{IsPlainStatement};
ghost use Rattle.array_form.specs.Statement.{HasArrayForm};

use crate::texts::push;
use array_form::array_form;
use array_form::holds::{holds, is_plain_statement};
use dependence_graph::graphs::{Hold, HoldReason};
use dependence_graph::nest_ready::is_ready;
use f90_print::print90;
use nest::Nest;
use nest::statement_loops::statements_of;
use std::alloc::Global;
use tree::{Memory, Program90, Seq};

// How many loops are round a statement.
fn loops_round(alloc: Global, s: u32, nest: &Nest) -> Result<usize, Memory>
    requires { IsPlainStatement (nest_of nest.now) s }
    ensures { IfOk result (λ count. count ≡ length (statement_at (nest_of nest.now) s).loops) }
{
    let all = statements_of(alloc, nest)?;
    let standing = &all.as_slice()[s as usize - 1];
    Ok(standing.loops.len())
}

// Whether the array form of a statement at a level may be asked for.
fn may_be_formed(alloc: Global, s: u32, nest: &Nest, level: usize) -> Result<bool, Memory>
    ensures { IfOk result (λ b. IsTrue b → HasArrayForm (nest_of nest.now) s level) }
{
    if nest.symbols.len() >= 1 << 16 {
        return Ok(false);
    }
    if !is_ready(alloc, nest)? {
        return Ok(false);
    }
    if !is_plain_statement(alloc, s, nest)? {
        return Ok(false);
    }
    let loops = loops_round(alloc, s, nest)?;
    Ok(level >= 1 && level <= loops)
}

fn hold_word(reason: HoldReason) -> &'static [u8] {
    match reason {
        HoldReason::Form => b"FORM\n",
        HoldReason::Triangle => b"TRIANGLE\n",
        HoldReason::Bounds => b"BOUNDS\n",
    }
}

// Adds the array form, as a program.
fn push_form(
    out: &mut Vec<u8>,
    alloc: Global,
    s: u32,
    nest: &Nest,
    level: usize,
) -> Result<(), Memory> {
    if !may_be_formed(alloc, s, nest, level)? {
        return push(out, b"no array form\n");
    }
    let program = Program90 {
        name: None,
        decls: Seq::new(alloc),
        body: array_form(alloc, s, nest, level)?,
    };
    push(out, print90(alloc, &program, &Seq::new(alloc))?.as_slice())
}

fn push_level(
    out: &mut Vec<u8>,
    alloc: Global,
    s: u32,
    nest: &Nest,
    held: &[Hold],
    level: usize,
) -> Result<(), Memory> {
    for hold in held {
        if hold.level as usize == level {
            return push(out, hold_word(hold.reason));
        }
    }
    push_form(out, alloc, s, nest, level)
}

// Adds what is so at each level of a statement.
fn push_levels(out: &mut Vec<u8>, alloc: Global, s: u32, nest: &Nest) -> Result<(), Memory> {
    if !is_plain_statement(alloc, s, nest)? {
        return push(out, b"no holds\n");
    }
    let held = holds(alloc, s, nest)?;
    for outer in 0..loops_round(alloc, s, nest)? {
        push_level(out, alloc, s, nest, held.as_slice(), outer + 1)?;
    }
    Ok(())
}

/// Adds at each level of each statement of a nest the array form, as a program, or the word of what forbids it.
pub(crate) fn push_forms(out: &mut Vec<u8>, alloc: Global, nest: &Nest) -> Result<(), Memory> {
    let Ok(count) = u32::try_from(statements_of(alloc, nest)?.len()) else {
        return Err(Memory);
    };
    for before in 0..count {
        push_levels(out, alloc, before + 1, nest)?;
    }
    Ok(())
}
