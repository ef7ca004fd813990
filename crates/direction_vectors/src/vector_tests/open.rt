//! Which places of a dropped box its word may hang on.
//!
//! A box is dropped by the first test that refutes it. A vector in it may be refuted by an earlier test, if that looks
//! at places where the box has `*`, and then it may bear another word.
ghost use Rattle.std.specs.Prelude.{◌≤◌, ◌<◌, All, length};
ghost use Rattle.dependence_tests.specs.loop_lines.OneLoop.{HasSevenPlaces};
ghost use Rattle.subscripts.specs.Shapes.{AreDirsOf, IsPairing};
ghost use Rattle.direction_vectors.specs.vector_tests.Refs.{IsRefPair, IsVectorOf};

use crate::vector_tests::refs::RefPair;
use crate::vector_tests::siv::{miv_word_at, siv_word_at};
use crate::vector_tests::words::is_separable;
use subscripts::{Class, Dirs, Pairing, Test, classify};

// The first place from this one on in which a linear pair has a coefficient.
fn named_from(p: &Pairing, from: usize, end: usize) -> usize
    requires { end ≤ 7 }
{
    for place in from..end {
        if p.known && (p.from.loops[place] != 0 || p.to.loops[place] != 0) {
            return place;
        }
    }
    end
}

// The word by which the test of a pair drops vectors, where that looks at directions.
fn test_word(ps: &[Pairing], place: usize) -> Option<Test>
    requires pairings { All IsPairing ps.now }
    requires place { place < length ps.now }
{
    let word = match classify(&ps[place]) {
        Class::Ziv | Class::Unknown => return None,
        Class::Strong => Test::Strong,
        Class::WeakZero => Test::WeakZero,
        Class::WeakCrossing => Test::Crossing,
        Class::GeneralSiv => Test::Siv,
        Class::Miv => Test::Range,
    };
    if is_separable(ps, place) {
        Some(word)
    } else {
        Some(Test::Delta)
    }
}

// The tests are gone through in three rounds.
fn round(word: Test) -> u8 {
    match word {
        Test::Trip | Test::Scalar | Test::Ziv => 0,
        Test::Strong | Test::WeakZero | Test::Crossing | Test::Siv => 1,
        Test::Delta => 2,
        Test::Gcd | Test::Range | Test::Miv | Test::Unknown => 3,
    }
}

// The place of the pair whose own test drops the box.
fn dropping_place(ps: &[Pairing], d: &Dirs) -> usize
    requires pairings { All IsPairing ps.now }
    requires dirs { All (λ p. AreDirsOf p d.now) ps.now }
    requires places { All (λ p. HasSevenPlaces p d.now) ps.now }
    ensures { result ≤ length ps.now }
{
    for place in 0..ps.len() {
        if siv_word_at(ps, d, place).is_some() {
            return place;
        }
    }
    for place in 0..ps.len() {
        if miv_word_at(ps, d, place).is_some() {
            return place;
        }
    }
    ps.len()
}

// How many of the first pairs reach to the last one whose test comes in the same round and drops by another word.
fn others(ps: &[Pairing], word: Test, end: usize) -> usize
    requires pairings { All IsPairing ps.now }
    requires end { end ≤ length ps.now }
{
    let mut reach = 0;
    for place in 0..end {
        if let Some(other) = test_word(ps, place)
            && other != word
            && round(other) == round(word)
        {
            reach = place + 1;
        }
    }
    reach
}

// The first place from this one on in which the pair has a coefficient. One that has solutions in each direction
// doesn't count where each pair has one loop: then no test of the pair refutes any of them.
fn open_from(refs: &RefPair, p: &Pairing, from: usize) -> usize
    requires { IsRefPair refs.now }
{
    let common = usize::from(refs.common);
    let place = named_from(p, from, common);
    if place < common && refs.is_exact() && refs.has_each_direction(place) {
        return common;
    }
    place
}

/// The first place from this one on that the word of a dropped box may hang on, or the number of places.
pub fn open_place(refs: &RefPair, d: &Dirs, word: Test, from: usize) -> usize
    requires refs { IsRefPair refs.now }
    requires vector { IsVectorOf refs.now d.now }
{
    let ps = refs.subs.as_slice();
    let common = usize::from(refs.common);
    let mut reach = others(ps, word, ps.len());
    if reach > 0 {
        reach = others(ps, word, dropping_place(ps, d));
    }
    let mut first = common;
    for place in 0..ps.len() {
        if let Some(other) = test_word(ps, place) {
            let same = round(other) == round(word) && place < reach;
            if same || round(other) < round(word) {
                first = first.min(open_from(refs, &ps[place], from));
            }
        }
    }
    first
}
