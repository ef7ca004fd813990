//! Whether what is known of the loops refutes a group.
ghost use Rattle.std.specs.Prelude.{◌<◌, ℤ, List, All, IsTrue};
ghost use Rattle.subscripts.specs.Groups.{IsPairOfAll};
ghost use Rattle.subscripts.specs.Shapes.{AreDirsOf, IsPairing};
ghost use Rattle.dependence_tests.specs.delta_test.Kept.{AreConstraints, AreKept};
ghost use Rattle.dependence_tests.specs.delta_test.Members.{AreMembers, HasNoPairOfAll, LeavesNoRegion, LeavesNoPair};

use crate::delta_test::constraints::Constraints;
use crate::delta_test::iterations_left::leaves_none;
use crate::delta_test::learn::learned_of_all;
use crate::delta_test::put::reduced_by;
use crate::gcd_banerjee::{gcd_refutes_with, range_refutes_with};
use subscripts::{Dir, Dirs, Pairing};

/// Whether the constraint on a loop in this place leaves no iterations of it.
fn leaves_none_at(constraints: &Constraints, p: &Pairing, d: &Dirs, place: usize) -> bool
    requires constraints { AreConstraints constraints.now }
    requires pairing { IsPairing p.now }
    requires dirs { AreDirsOf p.now d.now }
    requires place { place < 7 }
    ensures { IsTrue result → LeavesNoRegion constraints.now p.now d.now }
{
    if place < usize::from(p.common) {
        return leaves_none(
            constraints.shared[place],
            p.from_spans[place].last,
            d.at[place],
        );
    }
    leaves_none(constraints.first[place], p.from_spans[place].last, Dir::Any)
        || leaves_none(constraints.second[place], p.to_spans[place].last, Dir::Any)
}

/// Whether the constraint on some loop leaves no iterations of it.
fn one_leaves_none(constraints: &Constraints, p: &Pairing, d: &Dirs) -> bool
    requires constraints { AreConstraints constraints.now }
    requires pairing { IsPairing p.now }
    requires dirs { AreDirsOf p.now d.now }
    ensures { IsTrue result → LeavesNoRegion constraints.now p.now d.now }
{
    for place in 0..7 {
        if leaves_none_at(constraints, p, d, place) {
            return true;
        }
    }
    false
}

/// Whether the GCD test or Banerjee's refutes a subscript pair with points and distances put in.
fn is_refuted(constraints: &Constraints, p: &Pairing, d: &Dirs) -> bool
    requires constraints { AreConstraints constraints.now }
    requires pairing { IsPairing p.now }
    requires dirs { AreDirsOf p.now d.now }
    ensures { IsTrue result → LeavesNoPair constraints.now p.now d.now }
{
    let reduced = reduced_by(p, constraints);
    if gcd_refutes_with(&reduced.pairing, reduced.constant) {
        return true;
    }
    range_refutes_with(&reduced.pairing, d, reduced.constant)
}

/// The same of one of several.
fn one_is_refuted(constraints: &Constraints, ps: &[Pairing], d: &Dirs) -> bool
    requires constraints { AreConstraints constraints.now }
    requires members { AreMembers ps.now d.now }
    requires linear { All (λ p. IsTrue p.known) ps.now }
    ensures { IsTrue result → (x y : List ℤ) → AreKept constraints.now x y → IsPairOfAll ps.now d.now x y → ⊥ }
{
    for p in ps {
        if is_refuted(constraints, p, d) {
            return true;
        }
    }
    false
}

/// Whether what the members of a group say of each loop's iterations leaves none: two constraints of a loop don't meet,
/// a constraint leaves no iterations of its loop in the direction, or a member with points and distances put in is
/// refuted by the GCD test or Banerjee's (Goff, Kennedy and Tseng 1991, section 5).
pub fn constraints_refute(ps: &[Pairing], d: &Dirs) -> bool
    requires members { AreMembers ps.now d.now }
    requires linear { All (λ p. IsTrue p.known) ps.now }
    ensures { IsTrue result → HasNoPairOfAll ps.now d.now }
{
    match learned_of_all(ps) {
        Some(constraints) => {
            if one_leaves_none(&constraints, &ps[0], d) {
                return true;
            }
            one_is_refuted(&constraints, ps, d)
        }
        None => true,
    }
}
