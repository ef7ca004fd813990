//! Conditions on trips.
ghost use Rattle.std.specs.Prelude.{◌≡◌, IfOk, pos};
ghost use Rattle.std.specs.Option.{option_map};
ghost use Rattle.tree.specs.Plain.{Binary, Number};
ghost use Rattle.tree.specs.View.{expression_of};
ghost use Rattle.tree.specs.declared.ops.Op.TheVariants.{Ge};
ghost use Rattle.array_form.specs.forms.Loops.{form_names_of};
ghost use Rattle.array_form.specs.forms.Statements.{form_tests_of};
ghost use Rattle.array_form.specs.holds.View.{surroundings_view};
ghost use Rattle.array_form.specs.Loops.{AreLoopsOf, HasPlaces, IsLoopOf, viewed};
ghost use Rattle.array_form.specs.Texts.{and_also, extent_over, with_tests};

use crate::holds::{CountedLoop, Surroundings};
use crate::trips::{is_positive_constant, trip_text, two};
use std::alloc::Global;
use tree::{Expr, Memory, Op};

// The trip is at least 1.
#[tactic(auto, using(tree::proofs::Equations::expression_equations))]
fn test_of(alloc: Global, a: &Surroundings, turns: &CountedLoop) -> Result<Expr, Memory>
    requires places { HasPlaces a.now }
    requires turns { IsLoopOf a.now turns.now }
    ensures { IfOk result (λ e. expression_of e ≡ Binary Ge (extent_over a.now turns.now) (Number (pos 1))) }
{
    let trip = trip_text(alloc, a, turns.trip)?;
    two(alloc, Op::Ge, trip, Expr::Int(1))
}

fn and_also(alloc: Global, so_far: Option<Expr>, test: Expr) -> Result<Option<Expr>, Memory>
    ensures { IfOk result (λ o. option_map expression_of o
        ≡ and_also (option_map expression_of so_far) (expression_of test)) }
{
    match so_far {
        Some(condition) => Ok(Some(two(alloc, Op::And, condition, test)?)),
        None => Ok(Some(test)),
    }
}

/// A condition and the tests of those loops whose trips aren't positive constants, from the outside in.
#[tactic(auto, using(crate::proofs::ConditionLaws::condition_laws))]
pub fn with_tests(
    alloc: Global,
    a: &Surroundings,
    so_far: Option<Expr>,
    loops: &[CountedLoop],
) -> Result<Option<Expr>, Memory>
    requires places { HasPlaces a.now }
    requires loops { AreLoopsOf a.now loops.now }
    ensures { IfOk result (λ o. option_map expression_of o ≡ with_tests (option_map expression_of so_far)
        (form_tests_of (form_names_of (surroundings_view a.now)) (viewed a.now loops.now))) }
{
    let Some((first, rest)) = loops.split_first() else {
        return Ok(so_far);
    };
    if is_positive_constant(first.trip) {
        return with_tests(alloc, a, so_far, rest);
    }
    let test = test_of(alloc, a, first)?;
    let so_far = and_also(alloc, so_far, test)?;
    with_tests(alloc, a, so_far, rest)
}
