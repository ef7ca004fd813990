//! The SIV tests (Goff, Kennedy and Tseng 1991, section 4.2).
ghost use Rattle.std.specs.Prelude.{◌≡◌, ℤ, Some, false, IsTrue, IsSome, MatchOption};
ghost use Rattle.subscripts.specs.Classes.{Loop, HasOneLoop, span_of};
ghost use Rattle.subscripts.specs.Cuts.{cut, cut_dirs, IsLeastPair};
ghost use Rattle.subscripts.specs.Forms.{HasNoPair};
ghost use Rattle.subscripts.specs.Refutations.{IsExact};
ghost use Rattle.subscripts.specs.Shapes.{IsPairing, AreDirsOf};
ghost use Rattle.dependence_tests.specs.loop_lines.Places.{loop_at};
ghost use Rattle.dependence_tests.specs.loop_lines.Verdicts.{OnNever, IfPair, OnAssumed, test_of};
ghost use Rattle.dependence_tests.specs.siv_tests.Ways.{IsRefuted, HasNone};
ghost use Rattle.dependence_tests.specs.siv_tests.Words.{IsSivWord, IsWordOf};

use crate::gcd_banerjee::{gcd_refutes, range_refutes};
use crate::loop_lines::line_points::least_on_line;
use crate::loop_lines::{
    LoopPlace, bounds_at, coefficients_at, constant_trip, line_of, one_loop_of, points_at,
};
use subscripts::{Dirs, Pairing, Point, Test, Verdict};

/// The name of the test, by the loop's two coefficients.
fn word_of(first: i64, second: i64) -> Test
    ensures { IsSivWord first second result }
{
    if first == 0 {
        return Test::WeakZero;
    }
    if second == 0 {
        return Test::WeakZero;
    }
    if first == second {
        return Test::Strong;
    }
    if i128::from(first) + i128::from(second) == 0 {
        return Test::Crossing;
    }
    Test::Siv
}

/// The least pair of iterations of the loop within its trip.
fn least_pair(p: &Pairing, d: &Dirs, at: LoopPlace, trip: i64) -> Option<(Point, Point)>
    requires pairing { IsPairing p.now }
    requires dirs { AreDirsOf p.now d.now }
    requires one { HasOneLoop p.now (loop_at at) }
    requires trip { (span_of p.now (loop_at at)).last ≡ Some trip }
    ensures { MatchOption result (HasNone p.now d.now) (λ r. IsLeastPair p.now d.now r.0.at r.1.at) }
{
    let both = least_on_line(line_of(p, at), i128::from(trip), bounds_at(p, d, at).dir)?;
    Some(points_at(at, both.i as i64, both.j as i64))
}

/// Tests a pair of one loop. Where the loop's trip is a constant, that loop alone decides; else the tests that look at
/// coefficients and bounds do.
pub fn test_siv(p: &Pairing, d: &Dirs) -> Verdict
    requires pairing { IsPairing p.now }
    requires dirs { AreDirsOf p.now d.now }
    requires one { (l : Loop) × HasOneLoop p.now l }
    ensures never { OnNever result (HasNoPair p.now d.now) }
    ensures why { OnNever result (IsRefuted p.now d.now) }
    ensures exact { OnNever result (IsExact p.now → HasNoPair (cut p.now) (cut_dirs p.now d.now)) }
    ensures pair { IfPair result (λ x y. IsExact p.now × IsLeastPair p.now d.now x.at y.at) }
    ensures assumed { OnAssumed result ((IsExact p.now → ⊥) × (IsRefuted p.now d.now → ⊥)) }
    ensures word { IsWordOf p.now (test_of result) }
{
    let at = one_loop_of(p);
    let (first, second) = coefficients_at(p, at);
    let word = word_of(first, second);
    match constant_trip(bounds_at(p, d, at).span) {
        Some(trip) => match least_pair(p, d, at, trip) {
            Some((first, second)) => Verdict::Pair(first, second, word),
            None => Verdict::Never(word),
        },
        None => {
            if gcd_refutes(p) {
                return Verdict::Never(word);
            }
            if range_refutes(p, d) {
                return Verdict::Never(word);
            }
            Verdict::Assumed(word)
        }
    }
}
