//! What rewrites a tree, and what rewrites a node.
ghost use Rattle.std.specs.Prelude.{◌≡◌, ℕ, ℤ, List, IfOk};
ghost use Rattle.tree.specs.View.{expression_of, reference_of};
ghost use Rattle.meaning.specs.Store.{Store};
ghost use Rattle.rewrite.specs.Following.{sequential};
ghost use Rattle.rewrite.specs.Making.{Making, made, made_parts};
ghost use Rattle.rewrite.specs.Suits.{Suiting};
ghost use Rattle.rewrite.specs.Rule.{IsRule};

use std::alloc::Global;
use tree::{Expr, Memory, Ref};

/// Rewrites one node, whose parts were rewritten before. It makes the same of a node at each call.
pub trait NodeRule {
    /// What becomes of an expression.
    ghost making: { Self → Making };

    /// An expression, with what it was as first written.
    fn node(&mut self, alloc: Global, first: &Expr, node: Expr) -> Result<Expr, Memory>
        ensures made { IfOk result (λ made. expression_of made
            ≡ (making self.old).expression (expression_of first.now) (expression_of node)) }
        ensures same { making self.new ≡ making self.old };
}

/// Rewrites the expressions of a tree, each from the leaves up. A rule that looks at one node at a time does so by
/// `rewrite_expression` and `rewrite_parts`. It makes the same of an expression at each call.
pub trait Rule {
    /// What becomes of an expression, and of the left side of an assignment.
    ghost making: { Self → Making };

    /// Which nodes it suits.
    ghost suits: { Self → Suiting };

    /// What the stores of the two runs have in common, for numbers of INTEGER with so many bits, and for these turns of
    /// the loops round the tree. A variable may stand for something else at each turn, and for one thing in it.
    ghost like: { Self → ℕ → List ℤ → Store → Store → Type 0 };

    /// What the rule makes of an expression.
    fn expression(&mut self, alloc: Global, expr: &Expr) -> Result<Expr, Memory>
        ensures made { IfOk result (λ new. expression_of new ≡ made (making self.old) (expression_of expr.now)) }
        ensures same { making self.new ≡ making self.old };

    /// A reference with its subscripts rewritten, which keeps its name.
    fn parts(&mut self, alloc: Global, item: &Ref) -> Result<Ref, Memory>
        ensures made { IfOk result (λ new. reference_of new ≡ made_parts (making self.old) (reference_of item.now)) }
        ensures same { making self.new ≡ making self.old };

    /// The left side of an assignment, whose subscripts were rewritten before.
    fn left(&mut self, alloc: Global, left: Ref) -> Result<Ref, Memory>
        ensures made { IfOk result (λ made. reference_of made ≡ (making self.old).left (reference_of left)) }
        ensures same { making self.new ≡ making self.old };

    /// Values are kept, and the stores stay alike at each change.
    ghost keeps: { (rule : Self) (bits : ℕ) (turns : List ℤ)
        → IsRule (sequential bits) (making rule) (suits rule) (like rule bits turns) };
}
