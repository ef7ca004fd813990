// The greatest common divisor of two coefficients, with Bezout's numbers.
ghost use Rattle.std.specs.Prelude.{◌≡◌, ◌≤◌, ◌^◌, pos, unsigned_abs};
ghost use Rattle.dependence_tests.specs.loop_lines.line_points.Bezout.{IsBezout};

use crate::loop_lines::line_points::whole::{divided, times};

/// Two coefficients are `divisor` times `first` and `divisor` times `second`, and `first * x + second * y` is 1.
#[derive(Clone, Copy, Debug)]
pub struct Bezout {
    pub divisor: i128,
    pub first: i128,
    pub second: i128,
    pub x: i128,
    pub y: i128,
}

/// Euclid's algorithm.
pub fn euclid(a: i128, b: i128) -> Bezout
    requires a_size { unsigned_abs a ≤ 2 ^ 44 }
    requires b_size { unsigned_abs b ≤ 2 ^ 44 }
    requires one { a ≡ pos 0 → b ≡ pos 0 → ⊥ }
    ensures { IsBezout a b result }
{
    if b == 0 {
        if a > 0 {
            Bezout {
                divisor: a,
                first: 1,
                second: 0,
                x: 1,
                y: 0,
            }
        } else {
            Bezout {
                divisor: -a,
                first: -1,
                second: 0,
                x: -1,
                y: 0,
            }
        }
    } else {
        let quotient = divided(a, b);
        let inner = euclid(b, quotient.rest);
        Bezout {
            divisor: inner.divisor,
            first: times(quotient.times, inner.first) + inner.second,
            second: inner.first,
            x: inner.y,
            y: inner.x - times(quotient.times, inner.y),
        }
    }
}
