//! Which expressions are scalars, by the bounds of their names.
ghost use Rattle.std.specs.Prelude.{◌≡◌, map};
ghost use Rattle.tree.specs.Plain.{expressions, subscripts};
ghost use Rattle.tree.specs.View.{expression_of, subscript_of};
ghost use Rattle.meaning.specs.Value.{is_scalar, are_scalar, are_indices, is_index, name_is_scalar, is_bare};
ghost use Rattle.tree.specs.View.{reference_of};
ghost use Rattle.array_expressions.specs.Scopes.{bounds_at, is_scalar_reference};

use crate::scope::Scope;
use tree::{Expr, Ref, Seq, Sub};

impl Scope<'_> {
    /// Whether an expression is a scalar.
    #[cycle(ranks)]
    #[tactic(auto, using(crate::proofs::RankLaws::rank_laws))]
    pub fn is_scalar(&self, expr: &Expr) -> bool
        ensures { result ≡ is_scalar (expression_of expr.now) (bounds_at self.now) }
    {
        match expr {
            Expr::Int(_) => true,
            Expr::Truth(_) => true,
            Expr::Item(item) => self.is_scalar_item(item),
            Expr::Un(_, a) => self.is_scalar(a),
            Expr::Bin(_, a, b) => self.is_scalar(a) && self.is_scalar(b),
            Expr::Call(_, exprs) => self.are_scalars(exprs),
            Expr::List(..) => false,
            Expr::Spread(..) => false,
            Expr::Transpose(_) => false,
            Expr::Reshape(..) => false,
            Expr::Reduce(..) => true,
        }
    }

    /// Whether a reference is a scalar: a name where it has no dimensions, and with subscripts where each of these is
    /// one.
    #[cycle(ranks)]
    #[tactic(auto, using(crate::proofs::RankLaws::item_laws))]
    pub fn is_scalar_item(&self, item: &Ref) -> bool
        ensures { result ≡ is_scalar_reference (reference_of item.now) (bounds_at self.now) }
    {
        if item.subs.is_empty() {
            return self.storage.is_scalar(item.name);
        }
        self.are_indices(&item.subs)
    }

    #[cycle(ranks)]
    fn are_scalars(&self, exprs: &Seq<Expr>) -> bool
        ensures { result ≡ are_scalar (expressions (map expression_of exprs.now)) (bounds_at self.now) }
    {
        for expr in exprs.as_slice() {
            if !self.is_scalar(expr) {
                return false;
            }
        }
        true
    }

    #[cycle(ranks)]
    fn are_indices(&self, subs: &Seq<Sub>) -> bool
        ensures { result ≡ are_indices (subscripts (map subscript_of subs.now)) (bounds_at self.now) }
    {
        for sub in subs.as_slice() {
            if !self.is_index(sub) {
                return false;
            }
        }
        true
    }

    #[cycle(ranks)]
    #[tactic(auto, using(crate::proofs::RankLaws::index_laws))]
    fn is_index(&self, sub: &Sub) -> bool
        ensures { result ≡ is_index (subscript_of sub.now) (bounds_at self.now) }
    {
        match sub {
            Sub::One(expr) => self.is_scalar(expr),
            Sub::Part(..) => false,
        }
    }
}
