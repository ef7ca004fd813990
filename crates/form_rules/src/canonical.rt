//! Canonical text as a rule.
ghost use Rattle.std.specs.Prelude.{◌≤◌, ◌^◌, length};

use crate::trees::{write_expression, write_parts};
use rewrite::Rule;
use std::alloc::Global;
use tree::{Expr, Memory, Name, Ref, Seq};

/// The rule by which each node becomes its canonical text, from the leaves up, in which the variable of a loop stood as
/// it was first written, and which is linear as it is now. So `(I - I + 3) * N + I` becomes `I + 3 * N`.
#[derive(Drop)]
pub struct Canonical {
    /// The variables of the loops, from the outside in.
    pub loops: Seq<Name>,
    /// The scalars that count as symbols, in the order in which they are to be written.
    pub symbols: Seq<Name>,
    ghost few: { length symbols ≤ 2 ^ 16 },
}

impl Rule for Canonical {
    ghost use Rattle.linear_forms.specs.Canonical.{canonising};
    ghost use Rattle.linear_forms.specs.CanonicalLaws.{all_suit, SameSized};
    ghost use Rattle.linear_forms.proofs.CanonicalRule.{canonising_is_rule};

    ghost making = { λ r. canonising r.loops r.symbols };

    ghost suits = { λ r. all_suit };

    ghost like = { λ r bits turns. SameSized bits };

    ghost keeps = { λ r bits turns. canonising_is_rule bits r.loops r.symbols };

    fn expression(&mut self, alloc: Global, expr: &Expr) -> Result<Expr, Memory> {
        let loops = self.loops.as_slice();
        Ok(write_expression(alloc, expr, loops, &self.symbols)?.expr)
    }

    fn parts(&mut self, alloc: Global, item: &Ref) -> Result<Ref, Memory> {
        let loops = self.loops.as_slice();
        Ok(write_parts(alloc, item, loops, &self.symbols)?.0)
    }

    fn left(&mut self, _alloc: Global, left: Ref) -> Result<Ref, Memory> {
        Ok(left)
    }
}
