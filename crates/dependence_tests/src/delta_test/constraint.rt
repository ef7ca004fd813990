//! Constraints on the two iterations of one loop, and what two of them leave.
ghost use Rattle.std.specs.Prelude.{◌≡◌, ◌≤◌, ◌^◌, ℤ, ◌↔◌, IsTrue, unsigned_abs, ◌+ℤ◌};
ghost use Rattle.dependence_tests.specs.loop_lines.line_points.Lines.{OnLine};
ghost use Rattle.dependence_tests.specs.loop_lines.line_points.Crossings.{IsSmallLine};
ghost use Rattle.dependence_tests.specs.delta_test.Constraints.{IsConstraint, Allows, IsMeet};

use crate::loop_lines::line_points::{Crossing, Line, common_points, times};

/// What is known of the two iterations of one loop: nothing, both of them, how far the second is after the first, a
/// line, or that there are none.
#[derive(Clone, Copy, Debug)]
pub enum Constraint {
    Anywhere,
    AtPoint(i128, i128),
    AtDistance(i128),
    AlongLine(Line),
    Nowhere,
}

fn is_on(line: Line, i: i128, j: i128) -> bool
    requires line { IsSmallLine line }
    requires i { unsigned_abs i ≤ 2 ^ 83 }
    requires j { unsigned_abs j ≤ 2 ^ 83 }
    ensures { IsTrue result ↔ OnLine line i j }
{
    times(line.first, i) + times(line.second, j) == line.constant
}

/// Whether two iterations keep a constraint.
fn allows(constraint: Constraint, i: i128, j: i128) -> bool
    requires constraint { IsConstraint constraint }
    requires i { unsigned_abs i ≤ 2 ^ 83 }
    requires j { unsigned_abs j ≤ 2 ^ 83 }
    ensures { IsTrue result ↔ Allows constraint i j }
{
    match constraint {
        Constraint::Anywhere => true,
        Constraint::AtPoint(x, y) => i == x && j == y,
        Constraint::AtDistance(distance) => j == i + distance,
        Constraint::AlongLine(line) => is_on(line, i, j),
        Constraint::Nowhere => false,
    }
}

/// Two lines' common points, where all points of the first are those of `kept`.
fn along_both(kept: Constraint, one: Line, other: Line) -> Constraint
    requires one { IsSmallLine one }
    requires other { IsSmallLine other }
    requires kept { IsConstraint kept }
    requires same { (i j : ℤ) → Allows kept i j ↔ OnLine one i j }
    ensures meet { (i j : ℤ) → Allows result i j ↔ (OnLine one i j × OnLine other i j) }
    ensures constraint { IsConstraint result }
{
    match common_points(one, other) {
        Crossing::Nowhere => Constraint::Nowhere,
        Crossing::At(i, j) => Constraint::AtPoint(i, j),
        Crossing::Everywhere => kept,
    }
}

/// The line on which the second iteration is so far after the first.
pub(crate) fn line_of_distance(distance: i128) -> Line
    requires { unsigned_abs distance ≤ 2 ^ 41 }
    ensures line { (i j : ℤ) → (j ≡ i +ℤ distance) ↔ OnLine result i j }
    ensures small { IsSmallLine result }
{
    Line {
        first: 1,
        second: -1,
        constant: -distance,
    }
}

// The table of meets: a row for each constraint, with the other one's in columns.
macro_rules! meet {
    ($one:ident, $other:ident) => {
        match $one {
            Constraint::Anywhere => $other,
            Constraint::Nowhere => $one,
            Constraint::AtPoint(i, j) => if allows($other, i, j) { $one } else { Constraint::Nowhere },
            Constraint::AtDistance(distance) => match $other {
                Constraint::Anywhere => $one,
                Constraint::Nowhere => $other,
                Constraint::AtPoint(i, j) => if allows($one, i, j) { $other } else { Constraint::Nowhere },
                Constraint::AtDistance(further) => if distance == further { $one } else { Constraint::Nowhere },
                Constraint::AlongLine(line) => along_both($one, line_of_distance(distance), line),
            },
            Constraint::AlongLine(line) => match $other {
                Constraint::Anywhere => $one,
                Constraint::Nowhere => $other,
                Constraint::AtPoint(i, j) => if allows($one, i, j) { $other } else { Constraint::Nowhere },
                Constraint::AtDistance(distance) => along_both($other, line_of_distance(distance), line),
                Constraint::AlongLine(further) => along_both($one, line, further),
            },
        }
    };
}

/// What two constraints leave.
pub fn meet_of(one: Constraint, other: Constraint) -> Constraint
    requires one { IsConstraint one }
    requires other { IsConstraint other }
    ensures meet { IsMeet one other result }
    ensures constraint { IsConstraint result }
{
    meet!(one, other)
}
