//! All that keeps loops from being nests.
use crate::texts::{push, push_count};
use nest_reasons::{Check, Flaw, is_large, symbols_of};
use std::alloc::Global;
use tree::{Memory, Name, Program77, Seq, Stmt};

const FLAWS: [Flaw; 5] = [
    Flaw::Exit,
    Flaw::InnerIf,
    Flaw::Bound,
    Flaw::Step,
    Flaw::Deep,
];

fn flaw_word(flaw: Flaw) -> &'static [u8] {
    match flaw {
        Flaw::Exit => b" EXIT",
        Flaw::InnerIf => b" INNERIF",
        Flaw::Bound => b" BOUND",
        Flaw::Step => b" STEP",
        Flaw::Deep => b" DEEP",
    }
}

// Whether a loop with these symbols, or one in it, has the flaw.
fn has_flaw(alloc: Global, flaw: Flaw, symbols: &[Name], stmt: &Stmt) -> Result<bool, Memory> {
    let check = Check {
        flaw,
        symbols: Seq::from_vec(Vec::from_slice(alloc, symbols)?),
    };
    if check.symbols.len() > 1 << 16 {
        return Ok(false);
    }
    check.any_in_stmt(alloc, &[], stmt)
}

fn push_flaws(
    out: &mut Vec<u8>,
    alloc: Global,
    symbols: &[Name],
    stmt: &Stmt,
) -> Result<(), Memory> {
    for flaw in FLAWS {
        if has_flaw(alloc, flaw, symbols, stmt)? {
            push(out, flaw_word(flaw))?;
        }
    }
    Ok(())
}

// Adds the line of a loop: where it begins, and its flaws.
fn push_loop(
    out: &mut Vec<u8>,
    alloc: Global,
    line: u32,
    symbols: &[Name],
    stmt: &Stmt,
) -> Result<(), Memory> {
    push(out, b"line ")?;
    push_count(out, line)?;
    push(out, b":")?;
    push_flaws(out, alloc, symbols, stmt)?;
    if is_large(alloc, stmt)? {
        push(out, b" LARGE")?;
    }
    push(out, b"\n")
}

fn push_stmt(
    out: &mut Vec<u8>,
    alloc: Global,
    program: &Program77,
    stmt: &Stmt,
) -> Result<(), Memory> {
    match stmt {
        Stmt::Do {
            line,
            var,
            body,
            ..
        } => {
            let symbols = symbols_of(alloc, &program.decls, *var, body)?;
            push_loop(out, alloc, *line, symbols.as_slice(), stmt)
        }
        _ => Ok(()),
    }
}

/// Adds a line for each outermost loop of a program that stands in no IF.
pub(crate) fn push_reasons(
    out: &mut Vec<u8>,
    alloc: Global,
    program: &Program77,
) -> Result<(), Memory> {
    for stmt in program.body.stmts.as_slice() {
        push_stmt(out, alloc, program, stmt)?;
    }
    Ok(())
}
