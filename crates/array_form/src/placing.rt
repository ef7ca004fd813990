//! References whose form has some of the loops, at the places of these.
ghost use Rattle.std.specs.Prelude.{◌≡◌, ◌+◌, ◌<◌, ◌^◌, ◌&&◌, if◌then◌else◌, IfOk, length};
ghost use Rattle.tree.specs.Plain.{Named, Spread};
ghost use Rattle.tree.specs.View.{expression_of, reference_of};
ghost use Rattle.array_form.specs.forms.Forms.{placed_expression, spread_over};
ghost use Rattle.array_form.specs.forms.Loops.{is_among, form_names_of};
ghost use Rattle.array_form.specs.holds.View.{loop_names, surroundings_view};
ghost use Rattle.array_form.specs.Loops.{AreLoopsOf, HasPlaces, IsLoopOf, has_parts, viewed};
ghost use Rattle.array_form.specs.Texts.{extent_over};

use crate::constructors::constructed;
use crate::holds::{CountedLoop, Surroundings};
use crate::loops_in_text::{are_exchanged, are_part, has_loop, same_loops};
use crate::trips::trip_text;
use nest::copy_ref;
use std::alloc::Global;
use tree::{Expr, Memory, Ref};

// SPREAD over the loop, unless it is among those that are here.
#[tactic(auto, using(tree::proofs::Equations::expression_equations))]
fn spread_one(
    alloc: Global,
    a: &Surroundings,
    here: &[CountedLoop],
    place: usize,
    turns: &CountedLoop,
    expr: Expr,
) -> Result<Expr, Memory>
    requires places { HasPlaces a.now }
    requires turns { IsLoopOf a.now turns.now }
    ensures { IfOk result (λ e. expression_of e ≡ (if is_among (loop_names here.now) turns.now.var
        then expression_of expr else Spread (expression_of expr) place (extent_over a.now turns.now))) }
{
    if has_loop(here, turns.var) {
        return Ok(expr);
    }
    let extent = trip_text(alloc, a, turns.trip)?;
    let expr = Box::new(alloc, expr)?;
    Ok(Expr::Spread(expr, place, Box::new(alloc, extent)?))
}

// From the lowest place up.
#[tactic(auto, using(crate::proofs::PlacingLaws::spread_laws))]
fn spread_over(
    alloc: Global,
    a: &Surroundings,
    here: &[CountedLoop],
    place: usize,
    over: &[CountedLoop],
    expr: Expr,
) -> Result<Expr, Memory>
    requires places { HasPlaces a.now }
    requires over { AreLoopsOf a.now over.now }
    requires room { place + length over.now < 2 ^ 64 }
    ensures { IfOk result (λ e. expression_of e ≡ spread_over (form_names_of (surroundings_view a.now))
        (viewed a.now here.now) place (viewed a.now over.now) (expression_of expr)) }
{
    let Some((first, rest)) = over.split_first() else {
        return Ok(expr);
    };
    let wider = spread_one(alloc, a, here, place, first, expr)?;
    spread_over(alloc, a, here, place + 1, rest, wider)
}

// Whether SPREAD over the missing loops makes it so.
fn may_widen(
    alloc: Global,
    a: &Surroundings,
    over: &[CountedLoop],
    here: &[CountedLoop],
) -> Result<bool, Memory>
    ensures { IfOk result (λ b. b ≡ (a.now.may_spread && has_parts over.now here.now)) }
{
    if !a.may_spread {
        return Ok(false);
    }
    are_part(alloc, over, here)
}

/// The form of a reference over the loops `over`, where `plain` has the form over the loops `here`, in their order.
#[tactic(auto, using(crate::proofs::PlacingLaws::placing_laws))]
pub fn placed(
    alloc: Global,
    a: &Surroundings,
    over: &[CountedLoop],
    here: &[CountedLoop],
    plain: Expr,
    item: &Ref,
) -> Result<Expr, Memory>
    requires places { HasPlaces a.now }
    requires over { AreLoopsOf a.now over.now }
    ensures { IfOk result (λ e. expression_of e ≡ placed_expression (surroundings_view a.now) (viewed a.now over.now)
        (viewed a.now here.now) (expression_of plain)
        (Named (reference_of item.now).name (reference_of item.now).subscripts)) }
{
    if same_loops(over, here) {
        return Ok(plain);
    }
    if may_widen(alloc, a, over, here)? {
        return spread_over(alloc, a, here, 1, over, plain);
    }
    if are_exchanged(over, here) {
        return Ok(Expr::Transpose(Box::new(alloc, plain)?));
    }
    constructed(alloc, a, over, Expr::Item(copy_ref(item, alloc)?))
}
