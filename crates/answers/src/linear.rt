//! Right sides of statements as linear forms.
use crate::texts::{push, push_count, push_form};
use f90_print::print_expr;
use itoa::Buffer;
use linear_forms::{express, linear};
use nest::statement_loops::{Standing, statements_of};
use nest::{Loop, Nest};
use std::alloc::Global;
use subscripts::Affine;
use tree::{Memory, Name, Seq};

fn variables_of(alloc: Global, loops: &[Loop]) -> Result<Vec<Name>, Memory> {
    let mut names = Vec::new(alloc);
    for turns in loops {
        names.push(turns.var)?;
    }
    Ok(names)
}

// The name of the counter of a loop from 1 by 1.
fn counter_of(alloc: Global, turns: &Loop) -> Result<Name, Memory> {
    let mut text = Vec::from_slice(alloc, b"FV_LOOP_")?;
    text.extend_from_slice(Buffer::new().format(turns.number).as_bytes())?;
    Ok(Name::read(text.as_slice()).unwrap_or(turns.var))
}

fn counters_of(alloc: Global, loops: &[Loop]) -> Result<Vec<Name>, Memory> {
    let mut names = Vec::new(alloc);
    for turns in loops {
        names.push(counter_of(alloc, turns)?)?;
    }
    Ok(names)
}

// Adds the text of a form, in which the counters of the loops stand for their variables.
fn push_text(
    out: &mut Vec<u8>,
    alloc: Global,
    form: &Affine,
    loops: &[Loop],
    symbols: &Seq<Name>,
) -> Result<(), Memory> {
    let counters = counters_of(alloc, loops)?;
    let text = Box::new(
        alloc,
        express(alloc, form, counters.as_slice(), symbols, &[])?,
    )?;
    push(out, print_expr(alloc, &text)?.as_slice())
}

// Adds the linear form of the right side of a statement.
fn push_right(
    out: &mut Vec<u8>,
    alloc: Global,
    standing: &Standing,
    symbols: &Seq<Name>,
) -> Result<(), Memory> {
    let loops = standing.loops.as_slice();
    let variables = variables_of(alloc, loops)?;
    if symbols.len() > 1 << 16 {
        return push(out, b"too many symbols\n");
    }
    match linear(&standing.stmt.right, variables.as_slice(), symbols) {
        Some(form) => {
            push_form(out, &form, loops.len(), symbols.as_slice())?;
            push(out, b": ")?;
            push_text(out, alloc, &form, loops, symbols)?;
        }
        None => push(out, b"not linear")?,
    }
    push(out, b"\n")
}

/// Adds a line for the right side of each statement of a nest: its linear form over the variables of the loops and
/// the symbols, and the text of that over the counters, or that it isn't linear.
pub(crate) fn push_linear(out: &mut Vec<u8>, alloc: Global, nest: &Nest) -> Result<(), Memory> {
    let all = statements_of(alloc, nest)?;
    for standing in all.as_slice() {
        push(out, b"line ")?;
        push_count(out, standing.stmt.line)?;
        push(out, b": ")?;
        push_right(out, alloc, standing, &nest.symbols)?;
    }
    Ok(())
}
