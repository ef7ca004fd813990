//! The Delta test of a group.
ghost use Rattle.std.specs.Prelude.{◌≡◌, ◌<◌, ℤ, List, Some, false, All, IsTrue, MatchOption};
ghost use Rattle.subscripts.specs.Classes.{HasOneLoop, span_of};
ghost use Rattle.subscripts.specs.Groups.{IsExactGroup};
ghost use Rattle.subscripts.specs.Shapes.{IsGroup, AreDirsOf, members};
ghost use Rattle.dependence_tests.specs.loop_lines.Places.{loop_at};
ghost use Rattle.dependence_tests.specs.loop_lines.Verdicts.{OnNever, IfPair, OnAssumed, test_of};
ghost use Rattle.dependence_tests.specs.delta_test.Members.{AreMembers, HasNoPairOfAll};
ghost use Rattle.dependence_tests.specs.delta_test.Groups.{AreNotRefuted, HasNoCutPairOfAll, IsExactWith, IsLeastOfAll};
ghost use Rattle.dependence_tests.specs.delta_test.Groups.{delta_word};

use crate::delta_test::one_loop::{least_pair_of_all, loop_of_all};
use crate::delta_test::refute::constraints_refute;
use crate::gcd_banerjee::{gcd_refutes, range_refutes};
use crate::loop_lines::{LoopPlace, bounds_at, constant_trip};
use subscripts::{Dirs, Group, Pairing, Test, Verdict};

/// The one loop that all pairings have, and its trip, where that is a constant.
fn exact_loop(ps: &[Pairing], d: &Dirs) -> Option<(LoopPlace, i64)>
    requires { AreMembers ps.now d.now }
    ensures { MatchOption result (IsExactGroup ps.now → ⊥) (λ r. IsExactWith ps.now (loop_at r.0) r.1) }
{
    let at = loop_of_all(ps)?;
    let trip = constant_trip(bounds_at(&ps[0], d, at).span)?;
    Some((at, trip))
}

/// Whether the GCD test or Banerjee's refutes one of the pairings.
fn one_is_refuted(ps: &[Pairing], d: &Dirs) -> bool
    requires members { AreMembers ps.now d.now }
    requires linear { All (λ p. IsTrue p.known) ps.now }
    ensures sound { IsTrue result → HasNoPairOfAll ps.now d.now }
    ensures complete { result ≡ false → AreNotRefuted ps.now d.now }
{
    for p in ps {
        if gcd_refutes(p) {
            return true;
        }
        if range_refutes(p, d) {
            return true;
        }
    }
    false
}

/// Tests a group. Where all members have one and the same loop, with a constant trip, that loop alone decides.
/// Elsewhere the GCD test or Banerjee's refutes a member as it is, or what the members say of their loops leaves none.
pub fn test_group(g: &Group, d: &Dirs) -> Verdict
    requires group { IsGroup g.now }
    requires dirs { All (λ p. AreDirsOf p d.now) (members g.now) }
    ensures never { OnNever result (HasNoPairOfAll (members g.now) d.now) }
    ensures exact { OnNever result (IsExactGroup (members g.now) → HasNoCutPairOfAll (members g.now) d.now) }
    ensures pair { IfPair result (λ x y. IsExactGroup (members g.now) × IsLeastOfAll (members g.now) d.now x.at y.at) }
    ensures assumed { OnAssumed result ((IsExactGroup (members g.now) → ⊥) × AreNotRefuted (members g.now) d.now) }
    ensures word { test_of result ≡ delta_word }
{
    let ps = &g.at[..usize::from(g.count)];
    if let Some((at, trip)) = exact_loop(ps, d) {
        return match least_pair_of_all(ps, d, at, trip) {
            Some((first, second)) => Verdict::Pair(first, second, Test::Delta),
            None => Verdict::Never(Test::Delta),
        };
    }
    if one_is_refuted(ps, d) {
        return Verdict::Never(Test::Delta);
    }
    if constraints_refute(ps, d) {
        return Verdict::Never(Test::Delta);
    }
    Verdict::Assumed(Test::Delta)
}
