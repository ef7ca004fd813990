//! What subscript pairs say of their loops' iterations.
ghost use Rattle.std.specs.Prelude.{◌≡◌, ◌≤◌, ◌^◌, ℤ, pos, All, MatchOption, unsigned_abs};
ghost use Rattle.subscripts.specs.Shapes.{IsPairing};
ghost use Rattle.dependence_tests.specs.loop_lines.line_points.Crossings.{IsSmallLine};
ghost use Rattle.dependence_tests.specs.loop_lines.Places.{loop_at};
ghost use Rattle.dependence_tests.specs.delta_test.Constraints.{IsConstraint};
ghost use Rattle.dependence_tests.specs.delta_test.Kept.{AreConstraints};
ghost use Rattle.dependence_tests.specs.delta_test.Learned.{AreNeverEqual, HasNoValue, HaveNoSolution, IsLearned};
ghost use Rattle.dependence_tests.specs.delta_test.Learned.{IsLearnedBySolutions, IsLearnedOfAll};
ghost use Rattle.dependence_tests.specs.delta_test.Learned.{IsNeverEqual, IsSaidBy, IsValue};
ghost use Rattle.dependence_tests.specs.delta_test.Lefts.{IsOwnLine};

use crate::delta_test::constraint::Constraint;
use crate::delta_test::constraints::Constraints;
use crate::delta_test::iterations_left::constraint_of;
use crate::delta_test::left::{Left, left_of};
use crate::delta_test::put::reduced_by;
use crate::loop_lines::LoopPlace;
use crate::loop_lines::line_points::{Line, divided};
use subscripts::Pairing;

/// The number that a coefficient makes the constant with.
fn value_of(coefficient: i128, constant: i128) -> Option<i128>
    requires coefficient { coefficient ≡ pos 0 → ⊥ }
    requires constant { unsigned_abs constant ≤ 2 ^ 41 }
    ensures { MatchOption result (HasNoValue coefficient constant) (λ v. IsValue coefficient constant v) }
{
    let value = divided(constant, coefficient);
    if value.rest != 0 {
        return None;
    }
    Some(value.times)
}

/// The constraint that a line is on the iterations of its loop. Where the loop stands round one reference alone it is a
/// value.
fn constraint_along(at: LoopPlace, line: Line) -> Constraint
    requires small { IsSmallLine line }
    requires own { IsOwnLine (loop_at at) line }
    ensures constraint { IsConstraint result }
    ensures kept { IsSaidBy (loop_at at) line result }
{
    match at {
        LoopPlace::Shared(_) => constraint_of(line),
        LoopPlace::First(_) => match value_of(line.first, line.constant) {
            Some(value) => Constraint::AtPoint(value, 1),
            None => Constraint::Nowhere,
        },
        LoopPlace::Second(_) => match value_of(line.second, line.constant) {
            Some(value) => Constraint::AtPoint(1, value),
            None => Constraint::Nowhere,
        },
    }
}

/// What is known once a subscript pair has been looked at, or None where its sides are never equal.
fn learned_of(constraints: Constraints, p: &Pairing) -> Option<Constraints>
    requires constraints { AreConstraints constraints }
    requires pairing { IsPairing p.now }
    ensures { MatchOption result (IsNeverEqual constraints p.now) (λ more. IsLearned constraints p.now more) }
{
    match left_of(&reduced_by(p, &constraints)) {
        Left::Constant(constant) => {
            if constant != 0 {
                return None;
            }
            Some(constraints)
        }
        Left::Along(at, line) => Some(constraints.with(at, constraint_along(at, line))),
        Left::More => Some(constraints),
    }
}

/// What is known once all have been looked at in order, or None where some sides are never equal.
fn learned_once(constraints: Constraints, ps: &[Pairing]) -> Option<Constraints>
    requires constraints { AreConstraints constraints }
    requires pairings { All IsPairing ps.now }
    ensures { MatchOption result (AreNeverEqual constraints ps.now) (λ more. IsLearnedOfAll constraints ps.now more) }
{
    let mut learned = constraints;
    for p in ps {
        learned = learned_of(learned, p)?;
    }
    Some(learned)
}

/// What subscript pairs say of their loops' iterations, or None where no iterations make the sides of all equal. They
/// are gone through as many times as there are pairs, so that what one says gets to the others.
pub fn learned_of_all(ps: &[Pairing]) -> Option<Constraints>
    requires { All IsPairing ps.now }
    ensures { MatchOption result (HaveNoSolution ps.now) (λ learned. IsLearnedBySolutions ps.now learned) }
{
    let mut learned = Constraints::nothing();
    for _ in ps {
        learned = learned_once(learned, ps)?;
    }
    Some(learned)
}
