//! The least difference of a pairing's sides over a region.
ghost use Rattle.std.specs.Prelude.{◌≡◌, ◌≤◌, ◌^◌, ◌↔◌, Bool, IsTrue, unsigned_abs};
ghost use Rattle.dependence_tests.specs.gcd_banerjee.Least.{IsLeastOf, IsWithin};
ghost use Rattle.dependence_tests.specs.gcd_banerjee.Extremes.{IsAbove, IsDifference, IsLoopsValue, IsReduced};
ghost use Rattle.dependence_tests.specs.gcd_banerjee.Extremes.{IsSymbolsValue, turned};
ghost use Rattle.subscripts.specs.Shapes.{AreDirsOf, HasSmallSymbols};

use crate::gcd_banerjee::least::Least;
use crate::gcd_banerjee::terms::least_term;
use subscripts::{Dirs, Pairing};

// A number, or its opposite.
fn turned(opposite: bool, z: i128) -> i128
    requires { unsigned_abs z ≤ 2 ^ 125 }
    ensures { result ≡ turned opposite z }
{
    if opposite { -z } else { z }
}

// The least difference of what the loops add to both sides, or of its opposite.
fn least_of_loops(p: &Pairing, d: &Dirs, opposite: bool) -> Least
    requires reduced { IsReduced p.now }
    requires dirs { AreDirsOf p.now d.now }
    ensures least { IsLeastOf (IsLoopsValue p.now d.now opposite 0) result }
    ensures within { IsWithin (2 ^ 113) result }
{
    let mut least = Least::At(0);
    for k in (0..7).rev() {
        let first = turned(opposite, i128::from(p.from.loops[k]));
        let second = turned(opposite, i128::from(p.to.loops[k]));
        least = least_term(first, second, p.from_spans[k], p.to_spans[k], d.at[k]).plus(least);
    }
    least
}

// The least difference of what the symbols add to both sides, or of its opposite.
fn least_of_symbols(p: &Pairing) -> Least
    requires { HasSmallSymbols p.now }
    ensures least { (opposite : Bool) → IsLeastOf (IsSymbolsValue p.now opposite) result }
    ensures within { IsWithin 0 result }
{
    if p.symbols_cancel() {
        Least::At(0)
    } else {
        Least::Unbounded
    }
}

// The least difference of both sides over the region, or of its opposite, where the constants differ by `constant`.
fn least_difference(p: &Pairing, d: &Dirs, constant: i128, opposite: bool) -> Least
    requires reduced { IsReduced p.now }
    requires dirs { AreDirsOf p.now d.now }
    requires constant { unsigned_abs constant ≤ 2 ^ 100 }
    ensures { IsLeastOf (IsDifference p.now d.now constant opposite) result }
{
    let linear = least_of_loops(p, d, opposite).plus(least_of_symbols(p));
    linear.plus(Least::At(turned(opposite, constant)))
}

// Whether it is above 0 all over the region.
pub fn is_above(p: &Pairing, d: &Dirs, constant: i128, opposite: bool) -> bool
    requires reduced { IsReduced p.now }
    requires dirs { AreDirsOf p.now d.now }
    requires constant { unsigned_abs constant ≤ 2 ^ 100 }
    ensures { IsTrue result ↔ IsAbove p.now d.now constant opposite }
{
    match least_difference(p, d, constant, opposite) {
        Least::Nothing => true,
        Least::Unbounded => false,
        Least::At(least) => least > 0,
    }
}
