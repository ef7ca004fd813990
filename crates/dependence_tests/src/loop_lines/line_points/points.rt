// The whole points of a line.
ghost use Rattle.std.specs.Prelude.{◌≡◌, ◌≤◌, ◌^◌, pos, unsigned_abs, MatchOption};
ghost use Rattle.dependence_tests.specs.loop_lines.line_points.Lines.{IsLine, HasNoPoint, ArePoints};

use crate::loop_lines::line_points::bezout::euclid;
use crate::loop_lines::line_points::whole::{divided, times};

/// The line `first * i + second * j = constant` over two iterations of a loop.
#[derive(Clone, Copy, Debug)]
pub struct Line {
    pub first: i128,
    pub second: i128,
    pub constant: i128,
}

/// The points `(i + along_i * s, j + along_j * s)` for all whole numbers s.
#[derive(Clone, Copy, Debug)]
pub struct Points {
    pub i: i128,
    pub j: i128,
    pub along_i: i128,
    pub along_j: i128,
}

/// All whole points of the line, or None where it has none.
pub fn points_of(line: Line) -> Option<Points>
    requires { IsLine line }
    ensures { MatchOption result (HasNoPoint line) (λ p. ArePoints line p) }
{
    let bezout = euclid(line.first, line.second);
    let scale = divided(line.constant, bezout.divisor);
    if scale.rest != 0 {
        return None;
    }
    Some(Points {
        i: times(scale.times, bezout.x),
        j: times(scale.times, bezout.y),
        along_i: bezout.second,
        along_j: -bezout.first,
    })
}
