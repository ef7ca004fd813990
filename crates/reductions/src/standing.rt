//! Whether a name stands in expressions and in subscripts.
ghost use Rattle.std.specs.Prelude.{◌≡◌, IfOk, map};
ghost use Rattle.tree.specs.Plain.{subscripts};
ghost use Rattle.tree.specs.View.{expression_of, subscript_of};
ghost use Rattle.meaning.specs.Names.{is_among};
ghost use Rattle.reductions.specs.Finding.{stands_in, stands_in_subscript, stands_in_subscripts};

use rewrite::names_in_expr;
use std::alloc::Global;
use tree::{Expr, Memory, Name, Sub};

fn is_among(name: Name, names: &[Name]) -> bool
    ensures { result ≡ is_among names.now name }
{
    names.iter().any(|one| name == *one)
}

/// Whether the name stands in the expression.
pub(crate) fn stands_in(alloc: Global, name: Name, expr: &Expr) -> Result<bool, Memory>
    ensures { IfOk result (λ stands. stands ≡ stands_in name (expression_of expr.now)) }
{
    let names = names_in_expr(alloc, expr)?;
    Ok(is_among(name, names.as_slice()))
}

/// Whether it stands in the subscript.
#[tactic(auto, using(tree::proofs::Equations::expression_equations))]
pub(crate) fn stands_in_sub(alloc: Global, name: Name, sub: &Sub) -> Result<bool, Memory>
    ensures { IfOk result (λ stands. stands ≡ stands_in_subscript name (subscript_of sub.now)) }
{
    match sub {
        Sub::One(expr) => stands_in(alloc, name, expr),
        Sub::Part(lower, upper, stride) => Ok(
            stands_in(alloc, name, lower)?
                || stands_in(alloc, name, upper)?
                || stands_in(alloc, name, stride)?,
        ),
    }
}

/// Whether it stands in one of the subscripts.
pub(crate) fn stands_in_subs(alloc: Global, name: Name, subs: &[Sub]) -> Result<bool, Memory>
    ensures { IfOk result (λ stands. stands
        ≡ stands_in_subscripts name (subscripts (map subscript_of subs.now))) }
{
    let Some((first, rest)) = subs.split_first() else {
        return Ok(false);
    };
    Ok(stands_in_sub(alloc, name, first)? || stands_in_subs(alloc, name, rest)?)
}
