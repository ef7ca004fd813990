//! Array constructors over loops.
ghost use Rattle.std.specs.Prelude.{◌≡◌, IfOk, map};
ghost use Rattle.tree.specs.View.{expression_of, loop_of};
ghost use Rattle.array_form.specs.forms.Forms.{constructed};
ghost use Rattle.array_form.specs.forms.Loops.{form_names_of};
ghost use Rattle.array_form.specs.holds.View.{surroundings_view};
ghost use Rattle.array_form.specs.Loops.{AreLoopsOf, HasPlaces, IsLoopOf, viewed};
ghost use Rattle.array_form.specs.Texts.{extent_over, turn_over};

use crate::holds::{CountedLoop, Surroundings};
use crate::trips::trip_text;
use std::alloc::Global;
use tree::{Expr, Memory, Seq, Turn};

#[tactic(auto, using(tree::proofs::Equations::expression_equations))]
fn turn_over(alloc: Global, a: &Surroundings, turns: &CountedLoop) -> Result<Turn, Memory>
    requires places { HasPlaces a.now }
    requires turns { IsLoopOf a.now turns.now }
    ensures { IfOk result (λ t. loop_of t ≡ turn_over a.now turns.now) }
{
    Ok(Turn {
        var: turns.var,
        first: Expr::Int(1),
        last: trip_text(alloc, a, turns.trip)?,
    })
}

// From 1 to the trip of each loop, the first loop innermost.
fn turns_over(alloc: Global, a: &Surroundings, over: &[CountedLoop]) -> Result<Seq<Turn>, Memory>
    requires places { HasPlaces a.now }
    requires over { AreLoopsOf a.now over.now }
    ensures { IfOk result (λ all. map loop_of all ≡ map (turn_over a.now) over.now) }
{
    let mut all = Seq::new(alloc);
    for turns in over {
        all.push(turn_over(alloc, a, turns)?)?;
    }
    Ok(all)
}

// The trips of the loops.
fn extents_over(alloc: Global, a: &Surroundings, over: &[CountedLoop]) -> Result<Seq<Expr>, Memory>
    requires places { HasPlaces a.now }
    requires over { AreLoopsOf a.now over.now }
    ensures { IfOk result (λ all. map expression_of all ≡ map (extent_over a.now) over.now) }
{
    let mut all = Seq::new(alloc);
    for turns in over {
        all.push(trip_text(alloc, a, turns.trip)?)?;
    }
    Ok(all)
}

/// The constructor of an expression over loops, in RESHAPE where there isn't exactly one.
#[tactic(auto, using(crate::proofs::ConstructorLaws::constructor_laws))]
pub fn constructed(
    alloc: Global,
    a: &Surroundings,
    over: &[CountedLoop],
    expr: Expr,
) -> Result<Expr, Memory>
    requires places { HasPlaces a.now }
    requires over { AreLoopsOf a.now over.now }
    ensures { IfOk result (λ e. expression_of e
        ≡ constructed (form_names_of (surroundings_view a.now)) (viewed a.now over.now) (expression_of expr)) }
{
    let mut values = Seq::new(alloc);
    values.push(expr)?;
    let list = Expr::List(values, turns_over(alloc, a, over)?);
    if over.len() == 1 {
        return Ok(list);
    }
    let list = Box::new(alloc, list)?;
    Ok(Expr::Reshape(list, extents_over(alloc, a, over)?))
}
