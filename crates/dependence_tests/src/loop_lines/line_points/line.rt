//! The least iterations of a loop on a line. A strong SIV pair's line runs along the diagonal, a weak-zero SIV pair's
//! along an axis, and a weak-crossing SIV pair's across the diagonal; a general SIV pair's needs Euclid's algorithm.
//! All four go one way (Goff, Kennedy and Tseng, "Practical Dependence Testing", PLDI 1991, section 4.2).
ghost use Rattle.std.specs.Prelude.{◌≡◌, ◌≤◌, ◌^◌, ◌↔◌, ℤ, pos, ◌+ℤ◌, ◌*ℤ◌, ◌≤ℤ◌, unsigned_abs, MatchOption};
ghost use Rattle.subscripts.specs.Iterations.{IsRelated};
ghost use Rattle.dependence_tests.specs.loop_lines.line_points.Lines.{IsLine, IsPointAt};
ghost use Rattle.dependence_tests.specs.loop_lines.line_points.Stretch.{IsIn, IsShort};
ghost use Rattle.dependence_tests.specs.loop_lines.line_points.Least.{WithinTrip, IsWithin, IsAtMost, HasNone, IsLeast};
ghost use Rattle.dependence_tests.specs.loop_lines.line_points.Least.{IsRelatedAt, IsWithinAt, IsAtMostAt};

use crate::loop_lines::line_points::points::{Line, Points, points_of};
use crate::loop_lines::line_points::stretch::{Stretch, at_least};
use crate::loop_lines::line_points::whole::times;
use subscripts::Dir;

/// Two iterations of one loop.
#[derive(Clone, Copy, Debug)]
pub struct Both {
    pub i: i128,
    pub j: i128,
}

/// Keeps the numbers at which `at + along * s` is an iteration.
fn within_trip(stretch: Stretch, at: i128, along: i128, trip: i128) -> Stretch
    requires short { IsShort stretch }
    requires at { unsigned_abs at ≤ 2 ^ 90 }
    requires along { unsigned_abs along ≤ 2 ^ 44 }
    requires trip { unsigned_abs trip ≤ 2 ^ 64 }
    ensures left { (s : ℤ) → IsIn result s ↔ (IsIn stretch s × WithinTrip trip (at +ℤ along *ℤ s)) }
    ensures short { IsShort result }
{
    at_least(at_least(stretch, along, 1 - at), -along, at - trip)
}

/// Keeps the numbers whose points are related so.
fn related(stretch: Stretch, points: Points, dir: Dir) -> Stretch
    requires short { IsShort stretch }
    requires i { unsigned_abs points.i ≤ 2 ^ 90 }
    requires j { unsigned_abs points.j ≤ 2 ^ 90 }
    requires along_i { unsigned_abs points.along_i ≤ 2 ^ 44 }
    requires along_j { unsigned_abs points.along_j ≤ 2 ^ 44 }
    ensures left { (s : ℤ) → IsIn result s ↔ (IsIn stretch s × IsRelatedAt points dir s) }
    ensures short { IsShort result }
{
    let apart = points.j - points.i;
    let along = points.along_j - points.along_i;
    match dir {
        Dir::Lt => at_least(stretch, along, 1 - apart),
        Dir::Eq => at_least(at_least(stretch, along, -apart), -along, apart),
        Dir::Gt => at_least(stretch, -along, 1 + apart),
        Dir::Any => stretch,
    }
}

const FAR: i128 = 1 << 110;

/// The numbers whose points are pairs of iterations from 1 to the trip that are related so.
fn meeting(points: Points, trip: i128, dir: Dir) -> Stretch
    requires trip { unsigned_abs trip ≤ 2 ^ 64 }
    requires i { unsigned_abs points.i ≤ 2 ^ 90 }
    requires j { unsigned_abs points.j ≤ 2 ^ 90 }
    requires along_i { unsigned_abs points.along_i ≤ 2 ^ 44 }
    requires along_j { unsigned_abs points.along_j ≤ 2 ^ 44 }
    ensures every { (s : ℤ) → unsigned_abs s ≤ 2 ^ 110 → IsWithinAt points trip dir s → IsIn result s }
    ensures only { (s : ℤ) → IsIn result s → IsWithinAt points trip dir s }
    ensures short { IsShort result }
{
    let all = Stretch {
        low: -FAR,
        high: FAR,
    };
    let first = within_trip(all, points.i, points.along_i, trip);
    let second = within_trip(first, points.j, points.along_j, trip);
    related(second, points, dir)
}

/// The end of a stretch at which a point comes first.
fn first_end(points: Points, stretch: Stretch) -> i128
    requires apart { points.along_i ≡ pos 0 → points.along_j ≡ pos 0 → ⊥ }
    requires some { stretch.low ≤ℤ stretch.high }
    ensures inside { IsIn stretch result }
    ensures first { (s : ℤ) → IsIn stretch s → IsAtMostAt points result s }
{
    if points.along_i > 0 {
        stretch.low
    } else if points.along_i < 0 {
        stretch.high
    } else if points.along_j > 0 {
        stretch.low
    } else {
        stretch.high
    }
}

/// The point of a number.
fn point_at(points: Points, s: i128) -> Both
    requires i { unsigned_abs points.i ≤ 2 ^ 90 }
    requires j { unsigned_abs points.j ≤ 2 ^ 90 }
    requires at_i { unsigned_abs (points.i +ℤ points.along_i *ℤ s) ≤ 2 ^ 64 }
    requires at_j { unsigned_abs (points.j +ℤ points.along_j *ℤ s) ≤ 2 ^ 64 }
    ensures { IsPointAt points s result.i result.j }
{
    Both {
        i: points.i + times(points.along_i, s),
        j: points.j + times(points.along_j, s),
    }
}

/// The least pair of iterations from 1 to the trip on the line that are related so, or None where there is none.
pub fn least_on_line(line: Line, trip: i128, dir: Dir) -> Option<Both>
    requires line { IsLine line }
    requires trip { unsigned_abs trip ≤ 2 ^ 64 }
    ensures { MatchOption result (HasNone line trip dir) (λ at. IsLeast line trip dir at.i at.j) }
{
    let points = points_of(line)?;
    let stretch = meeting(points, trip, dir);
    if stretch.low > stretch.high {
        return None;
    }
    let at = first_end(points, stretch);
    Some(point_at(points, at))
}
