//! Greatest common divisors.
ghost use Prim.Native.Nat.{◌∣◌};
ghost use Rattle.std.specs.Int.{IsGcd};
ghost use Rattle.std.specs.Prelude.{◌↔◌, IsTrue, unsigned_abs};
ghost use Rattle.dependence_tests.specs.gcd_banerjee.Divisors.{IsGcdFrom};

// Euclid's algorithm.
pub fn gcd(a: u64, b: u64) -> u64
    ensures { IsGcd a b result }
{
    let mut x = a;
    let mut y = b;
    while y != 0 {
        let rest = x % y;
        x = y;
        y = rest;
    }
    x
}

// The greatest common divisor of a number and all numbers of a list.
pub fn gcd_with(start: u64, numbers: &[i64]) -> u64
    ensures { IsGcdFrom start numbers.now result }
{
    let mut all = start;
    for number in numbers {
        all = gcd(all, number.unsigned_abs());
    }
    all
}

// Whether a number divides another one; 0 divides 0 alone.
pub fn divides(divisor: u128, number: u128) -> bool
    ensures { IsTrue result ↔ divisor ∣ number }
{
    if divisor == 0 {
        return number == 0;
    }
    number % divisor == 0
}
