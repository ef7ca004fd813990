//! A scalar variable replaced by an expression.
ghost use Rattle.std.specs.Prelude.{◌≡◌, ℕ, IfOk};
ghost use Rattle.tree.specs.View.{expression_of};
ghost use Rattle.tree.specs.declared.exprs.Expr.TheVariants as exprs;
ghost use Rattle.meaning.specs.Store.{Store};
ghost use Rattle.meaning.specs.Value.{value_of};
ghost use Rattle.rewrite.specs.Following.{sequential};
ghost use Rattle.rewrite.specs.Substituting.{is_variable_alone};
ghost use Rattle.rewrite.specs.Substituted.{substituted, StandsFor};

use crate::NodeRule;
use crate::expressions::rewrite_expression;
use std::alloc::Global;
use tree::{Expr, Memory, Name, Ref};

// A scalar variable, and the expression that stands for it.
#[derive(Drop)]
struct Substitution {
    variable: Name,
    by: Expr,
}

fn is_scalar_named(item: &Ref, name: Name) -> bool
    ensures { result ≡ is_variable_alone name (expression_of (exprs.Item item.now)) }
{
    item.subs.is_empty() && item.name == name
}

/// Whether the expression is the scalar variable of this name.
#[tactic(auto, using(tree::proofs::Equations::expression_equations))]
pub fn is_variable(expr: &Expr, name: Name) -> bool
    ensures { result ≡ is_variable_alone name (expression_of expr.now) }
{
    match expr {
        Expr::Item(item) => is_scalar_named(item, name),
        Expr::Int(_)
        | Expr::Truth(_)
        | Expr::Un(..)
        | Expr::Bin(..)
        | Expr::Call(..)
        | Expr::List(..)
        | Expr::Spread(..)
        | Expr::Transpose(_)
        | Expr::Reshape(..)
        | Expr::Reduce(..) => false,
    }
}

impl NodeRule for Substitution {
    ghost use Rattle.tree.specs.View.{expression_of};
    ghost use Rattle.rewrite.specs.Substituting.{substituting};

    ghost making = { λ r. substituting r.variable (expression_of r.by) };

    fn node(&mut self, alloc: Global, _first: &Expr, node: Expr) -> Result<Expr, Memory> {
        if is_variable(&node, self.variable) {
            return self.by.copy(alloc);
        }
        Ok(node)
    }
}

/// The expression with each reference to a scalar variable replaced. Where the variable and its replacement have one
/// value, the expression keeps its value, or its fault.
pub fn substitute(alloc: Global, expr: Expr, name: Name, by: &Expr) -> Result<Expr, Memory>
    ensures made { IfOk result (λ new. expression_of new
        ≡ substituted name (expression_of by.now) (expression_of expr)) }
    ensures value { IfOk result (λ new. (bits : ℕ) (s : Store) → StandsFor bits name (expression_of by.now) s
        → value_of (sequential bits) (expression_of new) s ≡ value_of (sequential bits) (expression_of expr) s) }
{
    let mut rule = Substitution {
        variable: name,
        by: by.copy(alloc)?,
    };
    rewrite_expression(alloc, &expr, &mut rule)
}
