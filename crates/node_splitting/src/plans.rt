//! What becomes of one statement.
ghost use Rattle.std.specs.Prelude.{◌≡◌, ◌+◌, IfOk, length, map};
ghost use Rattle.std.specs.Option.{option_map};
ghost use Rattle.tree.specs.View.{expression_of, reference_of};
ghost use Rattle.nest.specs.View.{guarded_of, loop_of};
ghost use Rattle.node_splitting.specs.Arrays.{copy_element};
ghost use Rattle.node_splitting.specs.Counts.{variables_from_outside};
ghost use Rattle.node_splitting.specs.Reads.{split_statement};
ghost use Rattle.node_splitting.specs.Split.{may_in, reads_at};
ghost use Rattle.node_splitting.specs.View.{may_of, reads_by, split_by};

use crate::arrays::extents_over;
use crate::choice::Choice;
use crate::counts::{first_in_left, first_in_right, is_item};
use crate::reads::{Progress, Reader};
use nest::{GuardedStmt, Loop};
use std::alloc::Global;
use tree::{Expr, Memory, Name, Ref, Seq};

/// A statement that reads copies, what these copy, and how many copies there are in the program behind it.
#[derive(Drop)]
pub(crate) struct SplitStmt {
    pub stmt: GuardedStmt,
    pub reads: Seq<Ref>,
    pub copies: u32,
}

/// The variables of loops.
pub(crate) fn variables_of(alloc: Global, loops: &Seq<Loop>) -> Result<Seq<Name>, Memory>
    ensures { IfOk result (λ names. names ≡ variables_from_outside (map loop_of loops.now)) }
{
    let mut names = Seq::new(alloc);
    for turns in loops.as_slice() {
        names.push(turns.var)?;
    }
    Ok(names)
}

/// An equal guard.
pub(crate) fn copy_guard(alloc: Global, guard: &Option<Expr>) -> Result<Option<Expr>, Memory>
    ensures { IfOk result (λ copy. option_map expression_of copy ≡ option_map expression_of guard.now) }
{
    match guard {
        Some(expr) => Ok(Some(expr.copy(alloc)?)),
        None => Ok(None),
    }
}

// The statement as this reader reads it; `left` is the number of the first reference in the subscripts of its left
// side.
#[tactic(auto, using(crate::proofs::LeftSides::plan_laws))]
fn split_by(
    alloc: Global,
    reader: &Reader,
    left: u32,
    copies: u32,
    stmt: &GuardedStmt,
) -> Result<SplitStmt, Memory>
    ensures stmt { IfOk result (λ s. guarded_of s.stmt ≡ split_by reader.now left (guarded_of stmt.now) copies) }
    ensures reads { IfOk result (λ s. map reference_of s.reads ≡ reads_by reader.now left (guarded_of stmt.now)) }
    ensures copies { IfOk result (λ s. s.copies
        ≡ copies + length (reads_by reader.now left (guarded_of stmt.now))) }
{
    let mut progress = Progress {
        next: left,
        copies,
        reads: Seq::new(alloc),
    };
    let subs = reader.split_subs(alloc, &stmt.left.subs, &mut progress)?;
    let right = reader.split_expr(alloc, &stmt.right, &mut progress)?;
    let Progress { copies, reads, .. } = progress;
    let left = Ref {
        name: stmt.left.name,
        subs,
    };
    let stmt = GuardedStmt {
        line: stmt.line,
        guard: copy_guard(alloc, &stmt.guard)?,
        left,
        right,
    };
    Ok(SplitStmt {
        stmt,
        reads,
        copies,
    })
}

/// What becomes of the statement with this number, in these loops, where there are so many symbols, and so many copies
/// before.
pub(crate) fn split_statement(
    alloc: Global,
    choice: &Choice,
    symbols: u16,
    loops: &Seq<Loop>,
    number: u32,
    copies: u32,
    stmt: &GuardedStmt,
) -> Result<SplitStmt, Memory>
    ensures stmt { IfOk result
        (λ s. guarded_of s.stmt ≡ split_statement (variables_from_outside (map loop_of loops.now))
        (may_in (may_of choice.now) symbols (map loop_of loops.now) number) (guarded_of stmt.now)
        (copy_element (variables_from_outside (map loop_of loops.now))) copies) }
    ensures reads { IfOk result (λ s. map reference_of s.reads
        ≡ reads_at (may_of choice.now) symbols (map loop_of loops.now) number (guarded_of stmt.now)) }
    ensures copies { IfOk result (λ s. s.copies ≡ copies
        + length (reads_at (may_of choice.now) symbols (map loop_of loops.now) number (guarded_of stmt.now))) }
{
    let names = variables_of(alloc, loops)?;
    let extents = extents_over(alloc, symbols, loops.as_slice())?;
    let left = first_in_left(names.as_slice(), stmt)?;
    let right = first_in_right(names.as_slice(), stmt)?;
    let reader = Reader {
        loops: names.as_slice(),
        choice,
        stmt: number,
        fits: extents.is_some(),
        whole: is_item(&stmt.right),
        right,
    };
    split_by(alloc, &reader, left, copies, stmt)
}
