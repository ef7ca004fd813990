//! Nests with guarded statements, before any pass makes them. An IF with one arm and without ELSE becomes the guard of
//! each assignment in it, as it is where a pass has stored its condition in an array of masks. What is written is the
//! nest with its holds, as comments of a program that is what is emitted for it; then at each level of each statement
//! the array form, or what forbids it.
use crate::forms::push_forms;
use crate::texts::push;
use array_form::holds::{all_holds, is_plain_nest};
use dependence_graph::dep_graph::graph;
use dependence_graph::graphs::{Graph, Hold};
use dependence_graph::nest_ready::is_ready;
use emission::nest_emission::emit;
use f90_print::print90;
use listing::graphs::lines;
use nest::{GuardedStmt, Nest, NestArm, Part, copy_ref};
use nest_rewrite::with_parts;
use std::alloc::Global;
use tree::{Block, Expr, Line, Memory, Program90, Seq, both, three};

// The statement under this condition.
fn guarded_stmt(alloc: Global, test: &Expr, stmt: &GuardedStmt) -> Result<GuardedStmt, Memory> {
    let (guard, left, right) = three(
        test.copy(alloc),
        copy_ref(&stmt.left, alloc),
        stmt.right.copy(alloc),
    )?;
    Ok(GuardedStmt {
        line: stmt.line,
        guard: Some(guard),
        left,
        right,
    })
}

// Adds the statements of an arm, each under the arm's condition; other parts stay as they are.
fn push_arm(parts: &mut Seq<Part>, alloc: Global, arm: &NestArm) -> Result<(), Memory> {
    for part in arm.body.as_slice() {
        match part {
            Part::Run(stmt) => parts.push(Part::Run(guarded_stmt(alloc, &arm.test, stmt)?))?,
            Part::Turns(..) | Part::Choice(..) | Part::Label(_) | Part::Jump(_) => {
                parts.push(part.copy(alloc)?)?;
            }
        }
    }
    Ok(())
}

#[cycle(guarding)]
fn push_part(part: &Part, alloc: Global, parts: &mut Seq<Part>) -> Result<(), Memory> {
    match part {
        Part::Turns(turns, body) => {
            let (turns, body) = both(turns.copy(alloc), guarded_parts(body, alloc))?;
            parts.push(Part::Turns(turns, body))
        }
        Part::Choice(arms, other) => match arms.as_slice() {
            [arm] if other.is_empty() => push_arm(parts, alloc, arm),
            _ => parts.push(part.copy(alloc)?),
        },
        Part::Run(_) | Part::Label(_) | Part::Jump(_) => parts.push(part.copy(alloc)?),
    }
}

#[cycle(guarding)]
fn guarded_parts(parts: &Seq<Part>, alloc: Global) -> Result<Seq<Part>, Memory> {
    let mut guarded = Seq::new(alloc);
    for part in parts.as_slice() {
        push_part(part, alloc, &mut guarded)?;
    }
    Ok(guarded)
}

fn guarded_body(alloc: Global, part: &Part) -> Result<Part, Memory> {
    let Part::Turns(turns, body) = part else {
        return part.copy(alloc);
    };
    let (turns, body) = both(turns.copy(alloc), guarded_parts(body, alloc))?;
    Ok(Part::Turns(turns, body))
}

fn guarded_nest(alloc: Global, nest: &Nest) -> Result<Nest, Memory> {
    let (after, body) = both(nest.after.copy(alloc), guarded_body(alloc, &nest.body))?;
    with_parts(alloc, nest, body, Seq::new(alloc), after)
}

// What is emitted for a nest by its graph and these holds.
fn emitted(alloc: Global, nest: &Nest, holds: &Seq<Hold>) -> Result<Option<Block>, Memory> {
    if nest.symbols.len() >= 1 << 16 || !is_ready(alloc, nest)? {
        return Ok(None);
    }
    let graph = graph(alloc, nest)?;
    Ok(Some(emit(alloc, nest, &graph, holds)?))
}

// The lines of a nest with these holds, without its edges.
fn notes(alloc: Global, nest: &Nest, holds: &Seq<Hold>) -> Result<Seq<Line>, Memory> {
    let no_edges = Graph {
        stmts: 0,
        edges: Seq::new(alloc),
        dropped: Seq::new(alloc),
    };
    let no_cycles = Seq::new(alloc);
    lines(alloc, nest, nest.number, &no_edges, holds, &no_cycles)
}

// Adds what is emitted for a nest, behind its loops, its statements and its holds.
fn push_emission(out: &mut Vec<u8>, alloc: Global, nest: &Nest) -> Result<(), Memory> {
    if !is_plain_nest(alloc, nest)? {
        return push(out, b"no holds\n");
    }
    let holds = all_holds(alloc, nest)?;
    let notes = notes(alloc, nest, &holds)?;
    let Some(body) = emitted(alloc, nest, &holds)? else {
        return push(out, b"not ready\n");
    };
    let program = Program90 {
        name: None,
        decls: Seq::new(alloc),
        body,
    };
    push(out, print90(alloc, &program, &notes)?.as_slice())
}

/// Adds what is emitted for a nest with its IFs as guards, and the array forms of its statements at each level.
pub(crate) fn push_guarded(out: &mut Vec<u8>, alloc: Global, nest: &Nest) -> Result<(), Memory> {
    let guarded = guarded_nest(alloc, nest)?;
    push_emission(out, alloc, &guarded)?;
    push_forms(out, alloc, &guarded)
}
