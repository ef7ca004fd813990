//! References and lists of expressions.
ghost use Rattle.std.specs.Prelude.{◌≡◌, IfOk, map};
ghost use Rattle.std.specs.Option.{option_map};
ghost use Rattle.tree.specs.View.{expression_of, subscript_of, reference_of};

use std::alloc::Global;
use tree::{Expr, Memory, Ref, Seq, Sub, three};

#[tactic(auto, using(tree::proofs::Equations::expression_equations))]
fn copy_sub(sub: &Sub, alloc: Global) -> Result<Sub, Memory>
    ensures { IfOk result (λ copy. subscript_of copy ≡ subscript_of sub.now) }
{
    match sub {
        Sub::One(expr) => Ok(Sub::One(expr.copy(alloc)?)),
        Sub::Part(lower, upper, stride) => {
            let (lower, upper, stride) = three(
                lower.copy(alloc),
                upper.copy(alloc),
                stride.copy(alloc),
            )?;
            Ok(Sub::Part(lower, upper, stride))
        }
    }
}

/// An equal reference.
#[tactic(auto, using(tree::proofs::Equations::expression_equations))]
pub fn copy_ref(item: &Ref, alloc: Global) -> Result<Ref, Memory>
    ensures { IfOk result (λ copy. reference_of copy ≡ reference_of item.now) }
{
    let mut subs = Seq::new(alloc);
    for sub in item.subs.as_slice() {
        subs.push(copy_sub(sub, alloc)?)?;
    }
    Ok(Ref {
        name: item.name,
        subs,
    })
}

/// Equal expressions.
pub fn copy_exprs(exprs: &Seq<Expr>, alloc: Global) -> Result<Seq<Expr>, Memory>
    ensures { IfOk result (λ copies. map expression_of copies ≡ map expression_of exprs.now) }
{
    let mut copies = Seq::new(alloc);
    for expr in exprs.as_slice() {
        copies.push(expr.copy(alloc)?)?;
    }
    Ok(copies)
}

pub(crate) fn copy_guard(guard: &Option<Expr>, alloc: Global) -> Result<Option<Expr>, Memory>
    ensures { IfOk result (λ copy. option_map expression_of copy ≡ option_map expression_of guard.now) }
{
    match guard {
        Some(expr) => Ok(Some(expr.copy(alloc)?)),
        None => Ok(None),
    }
}
