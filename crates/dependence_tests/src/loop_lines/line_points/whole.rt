// Products and quotients of whole numbers, exact.
ghost use Rattle.std.specs.Prelude.{◌≡◌, ◌≤◌, ◌<◌, ◌*◌, ◌^◌, ◌*ℤ◌, pos, unsigned_abs};
ghost use Rattle.dependence_tests.specs.loop_lines.line_points.Quotient.{IsQuotient};

/// A quotient, rounded towards zero, and what is left.
#[derive(Clone, Copy, Debug)]
pub struct Quotient {
    pub times: i128,
    pub rest: i128,
}

/// The product.
pub fn times(a: i128, b: i128) -> i128
    requires { unsigned_abs a * unsigned_abs b < 2 ^ 127 }
    ensures { result ≡ a *ℤ b }
{
    a * b
}

/// The quotient.
pub fn divided(a: i128, b: i128) -> Quotient
    requires size { unsigned_abs a < 2 ^ 127 }
    requires nonzero { b ≡ pos 0 → ⊥ }
    ensures { IsQuotient a b result }
{
    Quotient {
        times: a / b,
        rest: a % b,
    }
}
