//! A scalar variable replaced by an expression.
use rewrite::{NodeRule, Rule, is_variable, rewrite_expression, rewrite_parts};
use std::alloc::Global;
use tree::{Expr, Memory, Name, Ref, Seq};

/// The rule by which an expression stands for a scalar variable, where the first run alone has the variable and the
/// second one alone has the new name.
#[derive(Drop)]
pub struct Replacement {
    pub variable: Name,
    pub by: Expr,
    /// A name that the first run doesn't know.
    pub new: Name,
    /// Names that keep their values, besides those that stand in the expression.
    pub fixed: Seq<Name>,
}

impl NodeRule for Replacement {
    ghost use Rattle.rewrite.specs.Replacing.{replacing};
    ghost use Rattle.form_rules.specs.Replacement.{replacing_of};

    ghost making = { λ r. replacing (replacing_of r) };

    fn node(&mut self, alloc: Global, _first: &Expr, node: Expr) -> Result<Expr, Memory> {
        if is_variable(&node, self.variable) {
            return self.by.copy(alloc);
        }
        Ok(node)
    }
}

impl Rule for Replacement {
    ghost use Rattle.rewrite.specs.Replacing.{replacing, replacing_suits, ValueStandsFor};
    ghost use Rattle.form_rules.specs.Replacement.{replacing_of, replacement_keeps};

    ghost making = { λ r. replacing (replacing_of r) };

    ghost suits = { λ r. replacing_suits (replacing_of r) };

    ghost like = { λ r bits turns. ValueStandsFor (replacing_of r) bits };

    ghost keeps = { replacement_keeps };

    fn expression(&mut self, alloc: Global, expr: &Expr) -> Result<Expr, Memory> {
        rewrite_expression(alloc, expr, self)
    }

    fn parts(&mut self, alloc: Global, item: &Ref) -> Result<Ref, Memory> {
        rewrite_parts(alloc, item, self)
    }

    fn left(&mut self, _alloc: Global, left: Ref) -> Result<Ref, Memory> {
        Ok(left)
    }
}
