//! The GCD test.
ghost use Rattle.std.specs.Prelude.{◌≡◌, ◌↔◌, ℕ, ℤ, IsTrue, List, map, pos};
ghost use Rattle.dependence_tests.specs.gcd_banerjee.Divisors.{IsGcdFrom, IsRefutedByGcdWith, difference_of};
ghost use Rattle.dependence_tests.specs.gcd_banerjee.Extremes.{difference_with};
ghost use Rattle.subscripts.specs.Forms.{HasNoPair};
ghost use Rattle.subscripts.specs.Refutations.{HasGcd, IsRefutedByGcd};
ghost use Rattle.subscripts.specs.Shapes.{HasSmallSymbols, IsPairing};
ghost use Rattle.subscripts.specs.declared.affine.Dirs.{Dirs as Vector};

use crate::gcd_banerjee::divisors::{divides, gcd, gcd_with};
use subscripts::Pairing;

// The greatest common divisor of a number and the differences of the coefficients of these symbols.
fn gcd_with_symbols(start: u64, p: &Pairing, symbols: &[(u16, i64)]) -> u64
    requires { HasSmallSymbols p.now }
    ensures { IsGcdFrom start (map (difference_of p.now) symbols.now) result }
{
    let mut all = start;
    for (symbol, _) in symbols {
        all = gcd(all, p.symbol_difference(*symbol).unsigned_abs());
    }
    all
}

// The greatest common divisor of all coefficients of a pairing.
fn gcd_of(p: &Pairing) -> u64
    requires { HasSmallSymbols p.now }
    ensures { HasGcd p.now result }
{
    let loops = gcd_with(gcd_with(0, &p.from.loops), &p.to.loops);
    gcd_with_symbols(gcd_with_symbols(loops, p, &p.from.syms), p, &p.to.syms)
}

/// Whether the greatest common divisor of all coefficients, as in `gcd_refutes`, doesn't divide `constant`, which
/// stands in place of the difference of the constants.
pub fn gcd_refutes_with(p: &Pairing, constant: i128) -> bool
    requires { HasSmallSymbols p.now }
    ensures exact { IsTrue result ↔ IsRefutedByGcdWith p.now constant }
    ensures sound { IsTrue result → (v : ℕ → ℤ) (x y : List ℤ) → difference_with p.now constant v x y ≡ pos 0 → ⊥ }
{
    !divides(u128::from(gcd_of(p)), constant.unsigned_abs())
}

/// Whether the greatest common divisor of the coefficients of all loops, and of the differences of each symbol's two
/// coefficients, doesn't divide the difference of the constants (Goff, Kennedy and Tseng 1991, section 4.4). Then no
/// whole numbers at all make both sides equal.
pub fn gcd_refutes(p: &Pairing) -> bool
    requires { IsPairing p.now }
    ensures exact { IsTrue result ↔ IsRefutedByGcd p.now }
    ensures sound { IsTrue result → IsTrue p.now.known → (d : Vector) → HasNoPair p.now d }
{
    gcd_refutes_with(p, i128::from(p.from.constant) - i128::from(p.to.constant))
}
