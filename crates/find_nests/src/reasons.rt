//! Why a loop is no nest.
ghost use Rattle.std.specs.Prelude.{◌≡◌, ◌≤◌, ◌^◌, length, IfOk};
ghost use Rattle.tree.specs.View.{statement_of};
ghost use Rattle.find_nests.specs.Reasons.{reason_over};
ghost use Rattle.find_nests.specs.WalkedReasons.{walked_reason};

use crate::bound_limits::Limits;
use nest_reasons::{Check, Flaw, is_large};
use std::alloc::Global;
use tree::{Memory, Name, Seq, Stmt};

/// Why a loop is kept: it is left, or halts or does input or output; a loop in it stands in an IF or between a GO TO
/// and its label; a bound isn't linear, or is out of the limits once the loops round it go from 1 by 1; an increment
/// isn't a suitable constant; too many loops stand in each other; it has too many statements, too many references, or
/// too many conditions, GO TOs and loops.
#[derive(Clone, Copy, Debug, PartialEq, Eq)]
pub enum Reason {
    Exit,
    InnerIf,
    Bound,
    Step,
    Deep,
    Large,
}

// The first reason that holds of a loop, looked for statement by statement.
fn walked_reason(alloc: Global, symbols: Seq<Name>, stmt: &Stmt) -> Result<Option<Reason>, Memory>
    requires { length symbols ≤ 2 ^ 16 }
    ensures { IfOk result (λ reason. reason ≡ walked_reason symbols (statement_of stmt.now)) }
{
    let mut check = Check {
        flaw: Flaw::Exit,
        symbols,
    };
    if check.any_in_stmt(alloc, &[], stmt)? {
        return Ok(Some(Reason::Exit));
    }
    check.flaw = Flaw::InnerIf;
    if check.any_in_stmt(alloc, &[], stmt)? {
        return Ok(Some(Reason::InnerIf));
    }
    check.flaw = Flaw::Bound;
    if check.any_in_stmt(alloc, &[], stmt)? {
        return Ok(Some(Reason::Bound));
    }
    check.flaw = Flaw::Step;
    if check.any_in_stmt(alloc, &[], stmt)? {
        return Ok(Some(Reason::Step));
    }
    let limits = Limits {
        symbols: check.symbols,
    };
    if limits.any_leaves(alloc, stmt)? {
        return Ok(Some(Reason::Bound));
    }
    let check = Check {
        flaw: Flaw::Deep,
        symbols: limits.symbols,
    };
    if check.any_in_stmt(alloc, &[], stmt)? {
        return Ok(Some(Reason::Deep));
    }
    if is_large(alloc, stmt)? {
        return Ok(Some(Reason::Large));
    }
    Ok(None)
}

/// The first reason that holds of a loop with these symbols, if one does.
pub(crate) fn reason_over(
    alloc: Global,
    symbols: Seq<Name>,
    stmt: &Stmt,
) -> Result<Option<Reason>, Memory>
    requires { length symbols ≤ 2 ^ 16 }
    ensures { IfOk result (λ reason. reason ≡ reason_over symbols (statement_of stmt.now)) }
{
    walked_reason(alloc, symbols, stmt)
}
