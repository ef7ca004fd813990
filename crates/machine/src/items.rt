//! The items of READ's lists (ANSI X3.9-1978, section 12.8.2).
ghost use Rattle.std.specs.Prelude.{◌≡◌, MatchOption};
ghost use Rattle.tree.specs.View.{expression_of, reference_of};
ghost use Rattle.meaning.specs.Value.{named};
ghost use Rattle.machine.specs.Reading.{IsNoName};

use tree::{Expr, Ref};

/// The name, with its subscripts, that an item of an input list is; none: it is no name, and no value is read for it.
#[tactic(auto, using(tree::proofs::Equations::expression_equations))]
pub fn name_in(expr: &Expr) -> Option<&Ref>
    ensures { MatchOption result (IsNoName (expression_of expr.now))
        (λ item. expression_of expr.now ≡ named (reference_of item.now)) }
{
    match expr {
        Expr::Item(item) => Some(item),
        Expr::Int(_) => None,
        Expr::Truth(_) => None,
        Expr::Un(..) => None,
        Expr::Bin(..) => None,
        Expr::Call(..) => None,
        Expr::List(..) => None,
        Expr::Spread(..) => None,
        Expr::Transpose(_) => None,
        Expr::Reshape(..) => None,
        Expr::Reduce(..) => None,
    }
}
