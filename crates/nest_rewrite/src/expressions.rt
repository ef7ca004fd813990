//! Expressions and left sides of a nest.
ghost use Rattle.std.specs.Prelude.{◌≡◌, map, IfOk};
ghost use Rattle.std.specs.Option.{option_map};
ghost use Rattle.tree.specs.View.{expression_of, reference_of};
ghost use Rattle.rewrite.specs.Making.{made, made_left};

use rewrite::Rule;
use std::alloc::Global;
use tree::{Expr, Memory, Ref, Seq};

/// The left side of an assignment.
pub(crate) fn rewrite_left<R: Rule>(alloc: Global, left: &Ref, rule: &mut R) -> Result<Ref, Memory>
    ensures made { IfOk result (λ new. reference_of new ≡ made_left (R.making rule.old) (reference_of left.now)) }
    ensures same { R.making rule.new ≡ R.making rule.old }
{
    let left = rule.parts(alloc, left)?;
    rule.left(alloc, left)
}

/// A condition, where there is one.
pub(crate) fn rewrite_guard<R: Rule>(
    alloc: Global,
    guard: &Option<Expr>,
    rule: &mut R,
) -> Result<Option<Expr>, Memory>
    ensures made { IfOk result (λ new. option_map expression_of new
        ≡ option_map (made (R.making rule.old)) (option_map expression_of guard.now)) }
    ensures same { R.making rule.new ≡ R.making rule.old }
{
    match guard {
        Some(expr) => Ok(Some(rule.expression(alloc, expr)?)),
        None => Ok(None),
    }
}

/// Expressions, each by itself.
pub(crate) fn rewrite_each<R: Rule>(
    alloc: Global,
    exprs: &Seq<Expr>,
    rule: &mut R,
) -> Result<Seq<Expr>, Memory>
    ensures made { IfOk result (λ new. map expression_of new
        ≡ map (made (R.making rule.old)) (map expression_of exprs.now)) }
    ensures same { R.making rule.new ≡ R.making rule.old }
{
    let mut made = Seq::new(alloc);
    for expr in exprs.as_slice() {
        made.push(rule.expression(alloc, expr)?)?;
    }
    Ok(made)
}
