//! The order of statements and their blocks.
ghost use Rattle.std.specs.Prelude.{◌||◌, Bool, List, IsTrue, IfOk};
ghost use Rattle.f90_grammar.specs.Blocks as grammar;
ghost use Rattle.f90_grammar.specs.Order.{Place90, is_disordered};
ghost use Rattle.f90_blocks.specs.places.forms.Places.{IsPlacedOf};
ghost use Rattle.f90_blocks.specs.places.First.{FindsFirst};
ghost use Rattle.f90_statement.specs.Views.{AreOf};

use crate::places::forms::Placed;
use crate::structure::blocks::first_wrong_closer;
use crate::structure::ends::first_open;
use crate::structure::names::first_misnamed;
use crate::structure::order::{first_late, first_wrong_end};
use std::alloc::Global;
use tree::Memory;

// The earlier of the first places of two things.
#[tactic(auto, using(crate::proofs::structure::Earlier::earlier_laws))]
fn earlier(a: Option<usize>, b: Option<usize>) -> Option<usize>
    ensures { (ps : List grammar.Placed) (f g : Place90 → Bool) → FindsFirst ps (λ p. IsTrue (f p)) a
        → FindsFirst ps (λ p. IsTrue (g p)) b → FindsFirst ps (λ p. IsTrue (f p || g p)) result }
{
    match (a, b) {
        (None, b) => b,
        (Some(i), None) => Some(i),
        (Some(i), Some(j)) => Some(i.min(j)),
    }
}

/// The first statement that is out of order, closes a block wrongly, or opens one that stays open.
pub fn first_disordered(alloc: Global, text: &[Placed]) -> Result<Option<usize>, Memory>
    ensures { (ps : List grammar.Placed) → AreOf IsPlacedOf text.now ps
        → IfOk result (λ found. FindsFirst ps (λ p. IsTrue (is_disordered ps p)) found) }
{
    let closed = first_wrong_closer(alloc, text)?;
    let late = earlier(first_misnamed(text), first_late(text));
    let outside = earlier(late, first_wrong_end(text));
    let inside = earlier(outside, closed);
    Ok(earlier(inside, first_open(text)))
}
