//! Least values.
ghost use Rattle.std.specs.Prelude.{◌≡◌, ◌≤◌, ◌^◌, ◌≤ℤ◌, ◌⊎◌, pos, None, Some, IfSome, unsigned_abs};
ghost use Rattle.dependence_tests.specs.gcd_banerjee.Least.{IsLeastOf, IsSumOf, IsTriangleValue, IsWithin, plus_least};

/// The least of some whole numbers.
#[derive(Clone, Copy, Debug)]
pub enum Least {
    /// There are none.
    Nothing,
    /// They go below every number.
    Unbounded,
    At(i128),
}

impl Least {
    // The least sum of one number each.
    pub fn plus(self, other: Least) -> Least
        requires first { IsWithin (2 ^ 125) self }
        requires second { IsWithin (2 ^ 125) other }
        ensures { result ≡ plus_least self other }
    {
        match (self, other) {
            (Least::Nothing, _) => Least::Nothing,
            (_, Least::Nothing) => Least::Nothing,
            (Least::Unbounded, _) => Least::Unbounded,
            (_, Least::Unbounded) => Least::Unbounded,
            (Least::At(first), Least::At(second)) => Least::At(first + second),
        }
    }
}

// The least of two numbers and 0.
fn steepest(c: i128, d: i128) -> i128
    ensures first { result ≤ℤ c }
    ensures second { result ≤ℤ d }
    ensures third { result ≤ℤ pos 0 }
    ensures one { (result ≡ c) ⊎ ((result ≡ d) ⊎ (result ≡ pos 0)) }
{
    c.min(d).min(0)
}

// The least `base + c * u + d * w` over all u and w from 0 on whose sum is at most `room`.
fn least_over_triangle(base: i128, room: i128, c: i128, d: i128) -> Least
    requires base { unsigned_abs base ≤ 2 ^ 44 }
    requires room { unsigned_abs room ≤ 2 ^ 64 }
    requires c { unsigned_abs c ≤ 2 ^ 44 }
    requires d { unsigned_abs d ≤ 2 ^ 44 }
    ensures least { IsLeastOf (IsTriangleValue base (Some room) c d) result }
    ensures within { IsWithin (2 ^ 109) result }
{
    if room < 0 {
        return Least::Nothing;
    }
    Least::At(base + steepest(c, d) * room)
}

// The same over all u and w from 0 on.
fn least_over_quadrant(base: i128, c: i128, d: i128) -> Least
    requires base { unsigned_abs base ≤ 2 ^ 44 }
    ensures least { IsLeastOf (IsTriangleValue base None c d) result }
    ensures within { IsWithin (2 ^ 109) result }
{
    if c < 0 {
        return Least::Unbounded;
    }
    if d < 0 {
        return Least::Unbounded;
    }
    Least::At(base)
}

// The same over all u and w from 0 on whose sum is at most `room`, where that is known.
pub fn least_over(base: i128, room: Option<i128>, c: i128, d: i128) -> Least
    requires base { unsigned_abs base ≤ 2 ^ 44 }
    requires room { IfSome room (λ n. unsigned_abs n ≤ 2 ^ 64) }
    requires c { unsigned_abs c ≤ 2 ^ 44 }
    requires d { unsigned_abs d ≤ 2 ^ 44 }
    ensures least { IsLeastOf (IsTriangleValue base room c d) result }
    ensures within { IsWithin (2 ^ 109) result }
{
    match room {
        Some(room) => least_over_triangle(base, room, c, d),
        None => least_over_quadrant(base, c, d),
    }
}
