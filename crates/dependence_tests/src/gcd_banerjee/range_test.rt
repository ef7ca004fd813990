//! Banerjee's test of the extremes.
ghost use Rattle.std.specs.Prelude.{◌≤◌, ◌^◌, ◌↔◌, IsTrue, unsigned_abs};
ghost use Rattle.dependence_tests.specs.gcd_banerjee.Extremes.{IsOneSidedWith, IsReduced};
ghost use Rattle.subscripts.specs.Forms.{HasNoPair};
ghost use Rattle.subscripts.specs.Refutations.{IsOneSided};
ghost use Rattle.subscripts.specs.Shapes.{AreDirsOf, IsPairing};

use crate::gcd_banerjee::extremes::is_above;
use subscripts::{Dirs, Pairing};

/// Whether 0 lies outside the extremes of the difference of both sides, where the constants differ by `constant` in
/// place of their own difference. So it suits a pairing into which iterations have been put, whose numbers are larger.
pub fn range_refutes_with(p: &Pairing, d: &Dirs, constant: i128) -> bool
    requires reduced { IsReduced p.now }
    requires dirs { AreDirsOf p.now d.now }
    requires constant { unsigned_abs constant ≤ 2 ^ 100 }
    ensures { IsTrue result ↔ IsOneSidedWith p.now d.now constant }
{
    is_above(p, d, constant, false) || is_above(p, d, constant, true)
}

/// Whether 0 lies outside the extremes of the difference of both sides, over the corners of the region that the
/// directions allow (Banerjee's inequality with directions: Allen and Kennedy, section 3.3.3; Goff, Kennedy and Tseng
/// 1991, section 4.4). A loop without a known end, and a symbol that doesn't cancel, have open sides; an empty region
/// is refuted.
pub fn range_refutes(p: &Pairing, d: &Dirs) -> bool
    requires pairing { IsPairing p.now }
    requires dirs { AreDirsOf p.now d.now }
    ensures exact { IsTrue result ↔ IsOneSided p.now d.now }
    ensures sound { IsTrue result → IsTrue p.now.known → HasNoPair p.now d.now }
{
    range_refutes_with(
        p,
        d,
        i128::from(p.from.constant) - i128::from(p.to.constant),
    )
}
