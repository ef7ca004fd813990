//! The least value of a linear form over a loop's iterations of both references, as a direction relates them.
//!
//! Such iterations are the whole points of a triangle, or of a square, whose corners are whole. So the least value is
//! taken at a corner, and there is none towards an open side along which the form falls (Allen and Kennedy, section
//! 3.3.3; Goff, Kennedy and Tseng 1991, section 4.4).
ghost use Rattle.std.specs.Prelude.{◌≡◌, ◌≢◌, ◌≤◌, ◌^◌, ℤ, pos, ◌+ℤ◌, ◌-ℤ◌, option_map, unsigned_abs, IfSome};
ghost use Rattle.dependence_tests.specs.gcd_banerjee.Least.{IsLeastOf, IsWithin};
ghost use Rattle.dependence_tests.specs.gcd_banerjee.Terms.{IsAlong, IsBeforeValue, IsTermValue, room_from};

use crate::gcd_banerjee::least::{Least, least_over};
use subscripts::{Dir, Span};

// How many steps are left from an iteration to the last one.
fn steps_from(start: i128, last: Option<i64>) -> Option<i128>
    requires { unsigned_abs start ≤ 2 }
    ensures steps { result ≡ room_from start last }
    ensures small { IfSome result (λ n. unsigned_abs n ≤ 2 ^ 64) }
{
    match last {
        Some(last) => Some(i128::from(last) - start),
        None => None,
    }
}

// The least `c * i`, for all i from 1 to the last one.
fn least_along(c: i128, last: Option<i64>) -> Least
    requires { unsigned_abs c ≤ 2 ^ 43 }
    ensures least { IsLeastOf (IsAlong c last) result }
    ensures within { IsWithin (2 ^ 109) result }
{
    least_over(c, steps_from(1, last), c, c)
}

// The least `first * i - second * j`, for all i before j from 1 to the last one. The first of them is 1 and 2.
fn least_before(first: i128, second: i128, last: Option<i64>) -> Least
    requires first { unsigned_abs first ≤ 2 ^ 42 }
    requires second { unsigned_abs second ≤ 2 ^ 42 }
    ensures least { IsLeastOf (IsBeforeValue first second last) result }
    ensures within { IsWithin (2 ^ 109) result }
{
    least_over(
        first - second - second,
        steps_from(2, last),
        first - second,
        -second,
    )
}

// The least `first * i - second * j` over the iterations i and j that stand to each other as the direction says.
pub fn least_term(first: i128, second: i128, from: Span, to: Span, dir: Dir) -> Least
    requires first { unsigned_abs first ≤ 2 ^ 42 }
    requires second { unsigned_abs second ≤ 2 ^ 42 }
    requires spans { dir ≢ Dir.Any → from ≡ to }
    ensures least { IsLeastOf (IsTermValue first second from to dir) result }
    ensures within { IsWithin (2 ^ 110) result }
{
    match dir {
        Dir::Lt => least_before(first, second, from.last),
        Dir::Eq => least_along(first - second, from.last),
        Dir::Gt => least_before(-second, -first, from.last),
        Dir::Any => least_along(first, from.last).plus(least_along(-second, to.last)),
    }
}
