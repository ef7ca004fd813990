//! The least pair of iterations that a constraint leaves.
ghost use Rattle.std.specs.Prelude.{◌≡◌, ◌≤◌, ◌^◌, ℤ, ◌↔◌, unsigned_abs, MatchOption, IsTrue, None};
ghost use Rattle.std.specs.Option.{ForSome};
ghost use Rattle.subscripts.specs.Iterations.{IsRelated};
ghost use Rattle.dependence_tests.specs.loop_lines.line_points.Lines.{OnLine};
ghost use Rattle.dependence_tests.specs.loop_lines.line_points.Least.{IsWithin};
ghost use Rattle.dependence_tests.specs.loop_lines.line_points.Crossings.{IsSmallLine};
ghost use Rattle.dependence_tests.specs.delta_test.Constraints.{IsConstraint, Allows};
ghost use Rattle.dependence_tests.specs.declared.delta_test.constraint.Constraint.TheVariants.{Anywhere};
ghost use Rattle.dependence_tests.specs.delta_test.IterationsLeft.{IsLeastLeft, IsNoneLeft, IsNoneUpTo};

use crate::delta_test::constraint::{Constraint, line_of_distance};
use crate::loop_lines::line_points::{Both, Line, divided, least_on_line};
use subscripts::Dir;

/// The constraint that a line is: a distance where its coefficients are opposite.
pub fn constraint_of(line: Line) -> Constraint
    requires { IsSmallLine line }
    ensures same { (i j : ℤ) → Allows result i j ↔ OnLine line i j }
    ensures constraint { IsConstraint result }
{
    if line.first + line.second != 0 {
        return Constraint::AlongLine(line);
    }
    let before = divided(line.constant, line.first);
    if before.rest != 0 {
        return Constraint::Nowhere;
    }
    Constraint::AtDistance(-before.times)
}

/// The first iterations that are related so, where the trip reaches them.
fn first_related(trip: i128, dir: Dir) -> Option<Both>
    requires { unsigned_abs trip ≤ 2 ^ 64 }
    ensures { MatchOption result (IsNoneLeft Anywhere trip dir) (λ at. IsLeastLeft Anywhere trip dir at.i at.j) }
{
    match dir {
        Dir::Lt => if trip >= 2 {
            Some(Both { i: 1, j: 2 })
        } else {
            None
        },
        Dir::Gt => if trip >= 2 {
            Some(Both { i: 2, j: 1 })
        } else {
            None
        },
        Dir::Eq => if trip >= 1 {
            Some(Both { i: 1, j: 1 })
        } else {
            None
        },
        Dir::Any => if trip >= 1 {
            Some(Both { i: 1, j: 1 })
        } else {
            None
        },
    }
}

/// Whether two numbers are related so.
fn are_related(i: i128, j: i128, dir: Dir) -> bool
    ensures { IsTrue result ↔ IsRelated dir i j }
{
    match dir {
        Dir::Lt => i < j,
        Dir::Eq => i == j,
        Dir::Gt => i > j,
        Dir::Any => true,
    }
}

/// Whether two numbers are iterations that are related so.
fn are_within(i: i128, j: i128, trip: i128, dir: Dir) -> bool
    ensures { IsTrue result ↔ IsWithin trip dir i j }
{
    if i < 1 || i > trip || j < 1 || j > trip {
        return false;
    }
    are_related(i, j, dir)
}

/// The least pair of iterations that a constraint leaves.
pub fn least_left(left: Constraint, trip: i128, dir: Dir) -> Option<Both>
    requires left { IsConstraint left }
    requires trip { unsigned_abs trip ≤ 2 ^ 64 }
    ensures { MatchOption result (IsNoneLeft left trip dir) (λ at. IsLeastLeft left trip dir at.i at.j) }
{
    match left {
        Constraint::Anywhere => first_related(trip, dir),
        Constraint::AtPoint(i, j) => if are_within(i, j, trip, dir) {
            Some(Both { i, j })
        } else {
            None
        },
        Constraint::AtDistance(distance) => least_on_line(line_of_distance(distance), trip, dir),
        Constraint::AlongLine(line) => least_on_line(line, trip, dir),
        Constraint::Nowhere => None,
    }
}

/// Whether a constraint by itself leaves no pair of iterations of a loop without a known end. A line isn't looked at.
fn leaves_none_on(constraint: Constraint, dir: Dir) -> bool
    ensures { IsTrue result → IsNoneUpTo constraint None dir }
{
    match constraint {
        Constraint::AtPoint(i, j) => i < 1 || j < 1 || !are_related(i, j, dir),
        Constraint::AtDistance(distance) => !are_related(0, distance, dir),
        Constraint::Nowhere => true,
        Constraint::Anywhere | Constraint::AlongLine(_) => false,
    }
}

/// Whether a constraint leaves no pair of iterations up to the last one. Where no last one is known, a line is passed
/// over.
pub fn leaves_none(constraint: Constraint, last: Option<i64>, dir: Dir) -> bool
    requires { IsConstraint constraint }
    ensures sound { IsTrue result → IsNoneUpTo constraint last dir }
    ensures exact { ForSome last (λ n. IsNoneLeft constraint n dir → IsTrue result) }
{
    match last {
        Some(last) => least_left(constraint, i128::from(last), dir).is_none(),
        None => leaves_none_on(constraint, dir),
    }
}
