//! Which loops stand in a text.
ghost use Rattle.std.specs.Prelude.{◌≡◌, ◌++◌, ◌∷◌, [], if◌then◌else◌, IfOk, OnOk, Some, map, ℕ};
ghost use Rattle.std.specs.Option.{option_map};
ghost use Rattle.array_form.specs.forms.Loops.{loops_among};
ghost use Rattle.array_form.specs.forms.Statements.{stand_in_guard};
ghost use Rattle.meaning.specs.Reads.{names_in, names_in_subscript};
ghost use Rattle.tree.specs.View.{expression_of, subscript_of};
ghost use Rattle.array_form.specs.holds.Surroundings.{counted_of};

use crate::holds::loops::CountedLoop;
use nest::statement_loops::{stands_in, stands_in_sub};
use std::alloc::Global;
use tree::{Expr, Memory, Seq, Sub};

fn push_if(those: &mut Seq<CountedLoop>, turns: CountedLoop, stands: bool) -> Result<(), Memory>
    ensures { OnOk result (those.new ≡ those.old ++ (if stands then turns ∷ [] else [])) }
{
    if stands {
        those.push(turns)?;
    }
    Ok(())
}

/// Those of the loops whose variables stand in the expression.
pub fn loops_in(
    alloc: Global,
    loops: &[CountedLoop],
    expr: &Expr,
) -> Result<Seq<CountedLoop>, Memory>
    ensures { IfOk result (λ those. (n : ℕ) → map (counted_of n) those
        ≡ loops_among (map (counted_of n) loops.now) (names_in (expression_of expr.now))) }
{
    let mut those = Seq::new(alloc);
    for turns in loops {
        push_if(&mut those, *turns, stands_in(expr, turns.var))?;
    }
    Ok(those)
}

/// Those of the loops whose variables stand in the subscript.
pub fn loops_in_sub(
    alloc: Global,
    loops: &[CountedLoop],
    sub: &Sub,
) -> Result<Seq<CountedLoop>, Memory>
    ensures { IfOk result (λ those. (n : ℕ) → map (counted_of n) those
        ≡ loops_among (map (counted_of n) loops.now) (names_in_subscript (subscript_of sub.now))) }
{
    let mut those = Seq::new(alloc);
    for turns in loops {
        push_if(&mut those, *turns, stands_in_sub(sub, turns.var))?;
    }
    Ok(those)
}

/// Whether one of the loops stands in the expression.
#[tactic(auto, using(crate::proofs::holds::GuardLaws::standing_laws))]
pub fn stand_in(loops: &[CountedLoop], expr: &Expr) -> bool
    ensures { (n : ℕ) → result
        ≡ stand_in_guard (map (counted_of n) loops.now) (Some (expression_of expr.now)) }
{
    let Some((first, rest)) = loops.split_first() else {
        return false;
    };
    stands_in(expr, first.var) || stand_in(rest, expr)
}

/// Whether one of the loops stands in the guard.
pub fn stand_in_guard(loops: &[CountedLoop], guard: &Option<Expr>) -> bool
    ensures { (n : ℕ) → result
        ≡ stand_in_guard (map (counted_of n) loops.now) (option_map expression_of guard.now) }
{
    match guard {
        Some(expr) => stand_in(loops, expr),
        None => false,
    }
}
