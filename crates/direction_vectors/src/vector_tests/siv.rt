//! Separable subscript pairs, each of which is tested by itself.
ghost use Rattle.std.specs.Prelude.{◌≡◌, ◌<◌, ◌↔◌, ℕ, false, All, IsTrue, length, MatchOption};
ghost use Rattle.dependence_tests.specs.loop_lines.OneLoop.{HasSevenPlaces};
ghost use Rattle.subscripts.specs.Classes.{HasOneLoop, IsMiv, IsZiv, Loop};
ghost use Rattle.subscripts.specs.Shapes.{AreDirsOf, IsPairing};
ghost use Rattle.direction_vectors.specs.vector_tests.Places.{IsLeft, IsMivLeft, IsOneLeft, IsOneRefuted, IsRefutedIn};
ghost use Rattle.direction_vectors.specs.vector_tests.Places.{IsSeveralRefuted, IsSivLeft};
ghost use Rattle.direction_vectors.specs.vector_tests.Words.{HasUnequalConstants};

use crate::vector_tests::words::is_separable;
use dependence_tests::gcd_banerjee::{gcd_refutes, range_refutes};
use dependence_tests::loop_lines::only_loop_of;
use dependence_tests::siv_tests::test_siv;
use subscripts::{Class, Dirs, Pairing, Test, Verdict, classify};

// Whether the pair has no loop, and two different constants.
fn is_unequal(p: &Pairing) -> bool
    requires { IsPairing p.now }
    ensures sound { IsTrue result → IsZiv p.now × (p.now.from.constant ≡ p.now.to.constant → ⊥) }
    ensures complete { result ≡ false → IsZiv p.now → p.now.from.constant ≡ p.now.to.constant }
{
    match classify(p) {
        Class::Ziv => p.from.constant != p.to.constant,
        Class::Strong | Class::WeakZero | Class::WeakCrossing | Class::GeneralSiv => false,
        Class::Miv | Class::Unknown => false,
    }
}

/// Whether a pair without a loop has two different constants.
pub fn has_unequal_constants(ps: &[Pairing]) -> bool
    requires { All IsPairing ps.now }
    ensures sound { IsTrue result → HasUnequalConstants ps.now }
    ensures complete { result ≡ false → HasUnequalConstants ps.now → ⊥ }
{
    for p in ps {
        if is_unequal(p) {
            return true;
        }
    }
    false
}

// The word of a pair of one loop, if it is refuted.
fn refuted_siv(p: &Pairing, d: &Dirs) -> Option<Test>
    requires pairing { IsPairing p.now }
    requires dirs { AreDirsOf p.now d.now }
    requires places { HasSevenPlaces p.now d.now }
    requires one { (l : Loop) × HasOneLoop p.now l }
    ensures { MatchOption result (IsOneLeft p.now d.now) (IsOneRefuted p.now d.now) }
{
    match test_siv(p, d) {
        Verdict::Never(word) => Some(word),
        Verdict::Pair(_, _, _) | Verdict::Assumed(_) => None,
    }
}

// Whether the pair has several loops, or symbols that don't cancel.
fn is_miv(p: &Pairing) -> bool
    requires { IsPairing p.now }
    ensures { IsTrue result ↔ IsMiv p.now }
{
    match classify(p) {
        Class::Miv => true,
        Class::Ziv | Class::Unknown => false,
        Class::Strong | Class::WeakZero | Class::WeakCrossing | Class::GeneralSiv => false,
    }
}

// The word of a pair of several loops, if it is refuted.
fn refuted_miv(p: &Pairing, d: &Dirs) -> Option<Test>
    requires pairing { IsPairing p.now }
    requires dirs { AreDirsOf p.now d.now }
    requires several { IsMiv p.now }
    ensures { MatchOption result (IsLeft p.now d.now) (IsSeveralRefuted p.now d.now) }
{
    if gcd_refutes(p) {
        return Some(Test::Gcd);
    }
    if range_refutes(p, d) {
        return Some(Test::Range);
    }
    None
}

/// The word of the pair in this place, if it is separable, has one loop, and is refuted.
pub fn siv_word_at(ps: &[Pairing], d: &Dirs, place: usize) -> Option<Test>
    requires pairings { All IsPairing ps.now }
    requires dirs { All (λ p. AreDirsOf p d.now) ps.now }
    requires places { All (λ p. HasSevenPlaces p d.now) ps.now }
    requires place { place < length ps.now }
    ensures { MatchOption result (IsSivLeft ps.now d.now place)
        (λ w. IsRefutedIn ps.now (λ p. IsOneRefuted p d.now w)) }
{
    if !is_separable(ps, place) {
        return None;
    }
    match only_loop_of(&ps[place]) {
        Some(_) => refuted_siv(&ps[place], d),
        None => None,
    }
}

/// The word of the pair in this place, if it is separable, has several loops, and is refuted.
pub fn miv_word_at(ps: &[Pairing], d: &Dirs, place: usize) -> Option<Test>
    requires pairings { All IsPairing ps.now }
    requires dirs { All (λ p. AreDirsOf p d.now) ps.now }
    requires places { All (λ p. HasSevenPlaces p d.now) ps.now }
    requires place { place < length ps.now }
    ensures { MatchOption result (IsMivLeft ps.now d.now place)
        (λ w. IsRefutedIn ps.now (λ p. IsSeveralRefuted p d.now w)) }
{
    if !is_separable(ps, place) {
        return None;
    }
    if is_miv(&ps[place]) {
        refuted_miv(&ps[place], d)
    } else {
        None
    }
}

/// The word of the first separable pair of one loop that is refuted.
pub fn siv_word(ps: &[Pairing], d: &Dirs) -> Option<Test>
    requires pairings { All IsPairing ps.now }
    requires dirs { All (λ p. AreDirsOf p d.now) ps.now }
    requires places { All (λ p. HasSevenPlaces p d.now) ps.now }
    ensures { MatchOption result ((k : ℕ) → k < length ps.now → IsSivLeft ps.now d.now k)
        (λ w. IsRefutedIn ps.now (λ p. IsOneRefuted p d.now w)) }
{
    for place in 0..ps.len() {
        if let Some(word) = siv_word_at(ps, d, place) {
            return Some(word);
        }
    }
    None
}

/// The word of the first separable pair of several loops that is refuted.
pub fn miv_word(ps: &[Pairing], d: &Dirs) -> Option<Test>
    requires pairings { All IsPairing ps.now }
    requires dirs { All (λ p. AreDirsOf p d.now) ps.now }
    requires places { All (λ p. HasSevenPlaces p d.now) ps.now }
    ensures { MatchOption result ((k : ℕ) → k < length ps.now → IsMivLeft ps.now d.now k)
        (λ w. IsRefutedIn ps.now (λ p. IsSeveralRefuted p d.now w)) }
{
    for place in 0..ps.len() {
        if let Some(word) = miv_word_at(ps, d, place) {
            return Some(word);
        }
    }
    None
}
