//! The word of an edge.
ghost use Rattle.std.specs.Prelude.{◌≤◌, ◌<◌, ◌↔◌, ◌≡◌, All, IsTrue, length, MatchOption};
ghost use Rattle.subscripts.specs.Classes.{HasClass};
ghost use Rattle.subscripts.specs.Shapes.{IsPairing};
ghost use Rattle.subscripts.specs.declared.pairing.Pairing.{Pairing as Pair};
ghost use Rattle.direction_vectors.specs.vector_tests.Words.{IsClassWord, IsEdgeWord, IsSeparable};

use subscripts::{Class, Pairing, Test, classify};

/// Whether the pair in this place is coupled with no other one.
pub fn is_separable(ps: &[Pairing], place: usize) -> bool
    requires pairings { All IsPairing ps.now }
    requires place { place < length ps.now }
    ensures { IsTrue result ↔ IsSeparable ps.now place }
{
    for other in 0..ps.len() {
        if other != place && ps[place].shares_loop(&ps[other]) {
            return false;
        }
    }
    true
}

// The word of a pair of this class, if it has a loop or isn't linear.
fn class_word(class: Class) -> Option<Test>
    ensures { MatchOption result (class ≡ Class.Ziv) (λ w. (p : Pair) → HasClass p class → IsClassWord p w) }
{
    match class {
        Class::Ziv => None,
        Class::Strong => Some(Test::Strong),
        Class::WeakZero => Some(Test::WeakZero),
        Class::WeakCrossing => Some(Test::Crossing),
        Class::GeneralSiv => Some(Test::Siv),
        Class::Miv => Some(Test::Miv),
        Class::Unknown => Some(Test::Unknown),
    }
}

/// The word of an edge: that of the first pair that has a loop or isn't linear.
pub fn edge_word(ps: &[Pairing]) -> Test
    requires { All IsPairing ps.now }
    ensures { IsEdgeWord ps.now result }
{
    for place in 0..ps.len() {
        if let Some(word) = class_word(classify(&ps[place])) {
            return if is_separable(ps, place) {
                word
            } else {
                Test::Delta
            };
        }
    }
    if ps.is_empty() {
        Test::Scalar
    } else {
        Test::Ziv
    }
}
