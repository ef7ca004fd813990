//! Canonical text.
ghost use Rattle.std.specs.Prelude.{◌≡◌, ◌≤◌, ◌^◌, length, IfOk};
ghost use Rattle.tree.specs.View.{expression_of};
ghost use Rattle.linear_forms.specs.Canonical.{canonical_text};

use crate::forms::linear;
use crate::texts::express;
use std::alloc::Global;
use tree::{Expr, Memory, Name, Seq};

/// The canonical text of an expression that is linear in these loops and symbols; any other expression as it is.
pub fn canonical_text(
    alloc: Global,
    expr: Expr,
    loops: &[Name],
    symbols: &Seq<Name>,
) -> Result<Expr, Memory>
    requires { length symbols.now ≤ 2 ^ 16 }
    ensures { IfOk result (λ e. expression_of e ≡ canonical_text loops.now symbols.now (expression_of expr)) }
{
    match linear(&expr, loops, symbols) {
        Some(form) => express(alloc, &form, loops, symbols, &[]),
        None => Ok(expr),
    }
}
