// Where two lines meet.
ghost use Rattle.std.specs.Prelude.{◌≡◌, ◌≤◌, ◌^◌, unsigned_abs, ◌*ℤ◌, ◌-ℤ◌};
ghost use Rattle.dependence_tests.specs.loop_lines.line_points.Crossings.{IsSmallLine, Meet};

use crate::loop_lines::line_points::points::Line;
use crate::loop_lines::line_points::whole::{divided, times};

/// The points that two lines share: none, one, or all of either.
#[derive(Clone, Copy, Debug)]
pub enum Crossing {
    Nowhere,
    At(i128, i128),
    Everywhere,
}

/// `a * d - b * c`.
fn determinant(a: i128, b: i128, c: i128, d: i128) -> i128
    requires a { unsigned_abs a ≤ 2 ^ 41 }
    requires b { unsigned_abs b ≤ 2 ^ 41 }
    requires c { unsigned_abs c ≤ 2 ^ 41 }
    requires d { unsigned_abs d ≤ 2 ^ 41 }
    ensures value { result ≡ (a *ℤ d) -ℤ (b *ℤ c) }
    ensures size { unsigned_abs result ≤ 2 ^ 83 }
{
    times(a, d) - times(b, c)
}

/// By Cramer's rule.
pub fn common_points(one: Line, other: Line) -> Crossing
    requires one { IsSmallLine one }
    requires other { IsSmallLine other }
    ensures { Meet one other result }
{
    let all = determinant(one.first, one.second, other.first, other.second);
    let for_i = determinant(one.constant, one.second, other.constant, other.second);
    let for_j = determinant(one.first, one.constant, other.first, other.constant);
    if all == 0 {
        if for_i != 0 {
            return Crossing::Nowhere;
        }
        if for_j != 0 {
            return Crossing::Nowhere;
        }
        return Crossing::Everywhere;
    }
    let i = divided(for_i, all);
    if i.rest != 0 {
        return Crossing::Nowhere;
    }
    let j = divided(for_j, all);
    if j.rest != 0 {
        return Crossing::Nowhere;
    }
    Crossing::At(i.times, j.times)
}
