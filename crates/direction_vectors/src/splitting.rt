//! Boxes: vectors with `*` in the places that the answer doesn't hang on. A box is tested as a whole, and split into
//! three in the first place that its answer may hang on.
ghost use Rattle.std.specs.Prelude.{◌≡◌, ◌<◌, ◌≤◌, ◌↔◌, false, None, All, IfOk, IsTrue, MatchOption, [], ◌∷◌, ◌⊎◌};
ghost use Rattle.dependence_tests.specs.loop_lines.OneLoop.{HasNoneAt};
ghost use Rattle.dependence_tests.specs.loop_lines.Verdicts.{IfPair};
ghost use Rattle.subscripts.specs.declared.verdict.Verdict.TheVariants.{Never};
ghost use Rattle.direction_vectors.specs.vector_tests.Refs.{IsRefPair, IsVectorOf};
ghost use Rattle.direction_vectors.specs.vector_tests.Ways.{IsExactClass};
ghost use Rattle.direction_vectors.specs.vector_tests.Words.{IfKept, IfNever};
ghost use Rattle.direction_vectors.specs.Boxes.{HasRoom, InSkipped, IsDroppedBox, IsFree, IsFreeBefore};
ghost use Rattle.direction_vectors.specs.Boxes.{IsOpenBox, IsTripless};
ghost use Rattle.direction_vectors.specs.Parts.{AreUnder};
ghost use Rattle.direction_vectors.specs.Unions.{IsTested};

use crate::dirs::{Answer, with_dir};
use crate::merging::merged_of;
use crate::vector_tests::{RefPair, open_place, test_vector};
use std::alloc::Global;
use subscripts::{Dir, Dirs, Pairing, Test, Verdict};
use tree::Memory;

// Whether the pair is linear and has a coefficient in the place.
fn names(p: &Pairing, place: usize) -> bool
    requires { place < 7 }
    ensures { result ≡ false → IsTrue p.now.known → HasNoneAt p.now place }
{
    if !p.known {
        return false;
    }
    if p.from.loops[place] != 0 {
        return true;
    }
    p.to.loops[place] != 0
}

// Whether a pair does.
fn is_named(ps: &[Pairing], place: usize) -> bool
    requires { place < 7 }
    ensures { result ≡ false → All (λ p. IsTrue p.known → HasNoneAt p place) ps.now }
{
    for p in ps {
        if names(p, place) {
            return true;
        }
    }
    false
}

// Whether the answer to a box of the exact class may hang on the direction in this place.
fn is_bound(refs: &RefPair, place: usize) -> bool
    requires refs { IsRefPair refs.now }
    requires exact { IsExactClass refs.now }
    requires place { place < refs.now.common }
    ensures { result ≡ false → IsFree refs.now place }
{
    if refs.has_each_direction(place) {
        return false;
    }
    is_named(refs.subs.as_slice(), place)
}

// Whether the answer may hang on the direction in this place.
fn hangs_on(refs: &RefPair, verdict: &Verdict, first: usize, place: usize) -> bool
    requires refs { IsRefPair refs.now }
    requires place { place < refs.now.common }
    requires exact { IfPair verdict.now (λ x y. IsExactClass refs.now) }
    ensures room { result ≡ false → HasRoom refs.now place }
    ensures free { result ≡ false → IfKept verdict.now (λ w. IsFree refs.now place) }
{
    if place == first || refs.lacks_second(place) {
        return true;
    }
    match verdict {
        Verdict::Never(_) => false,
        Verdict::Pair(_, _, _) => is_bound(refs, place),
        Verdict::Assumed(_) => is_named(refs.subs.as_slice(), place),
    }
}

// The first place from this one on that the answer may hang on.
fn next_place(refs: &RefPair, verdict: &Verdict, first: usize, from: usize) -> usize
    requires refs { IsRefPair refs.now }
    requires exact { IfPair verdict.now (λ x y. IsExactClass refs.now) }
    requires from { from ≤ refs.now.common }
    ensures from { from ≤ result }
    ensures within { result ≤ refs.now.common }
    ensures rooms { InSkipped from result (HasRoom refs.now) }
    ensures free { InSkipped from result (λ m. IfKept verdict.now (λ w. IsFree refs.now m)) }
{
    for place in from..usize::from(refs.common) {
        if hangs_on(refs, verdict, first, place) {
            return place;
        }
    }
    usize::from(refs.common)
}

// What is said of a box that is dropped if this word is known.
fn box_verdict(refs: &RefPair, d: &Dirs, known: Option<Test>) -> Verdict
    requires refs { IsRefPair refs.now }
    requires vector { IsVectorOf refs.now d.now }
    requires known { MatchOption known (Unit {0}) (λ w. IsDroppedBox refs.now d.now w) }
    ensures tested { IsTested refs.now d.now result }
    ensures kept { IfKept result (λ w. known ≡ None) }
{
    let verdict = test_vector(refs, d);
    match verdict {
        Verdict::Never(_) => verdict,
        Verdict::Pair(_, _, _) | Verdict::Assumed(_) => match known {
            Some(word) => Verdict::Never(word),
            None => verdict,
        },
    }
}

// The word of a dropped box.
fn word_of(verdict: &Verdict) -> Option<Test>
    ensures { MatchOption result (IfNever verdict.now (λ w. ⊥)) (λ w. verdict.now ≡ Never w) }
{
    match verdict {
        Verdict::Never(word) => Some(*word),
        Verdict::Pair(_, _, _) | Verdict::Assumed(_) => None,
    }
}

// Whether a loop has no iteration.
fn is_tripless(verdict: &Verdict) -> bool
    ensures { IsTrue result ↔ IsTripless verdict.now }
{
    match verdict {
        Verdict::Never(word) => *word == Test::Trip,
        Verdict::Pair(_, _, _) | Verdict::Assumed(_) => false,
    }
}

// The answer to a box.
fn one_box(alloc: Global, d: &Dirs, verdict: Verdict) -> Result<Vec<Answer>, Memory>
    ensures { IfOk result (λ answers. answers.items ≡ (d.now, verdict) ∷ []) }
{
    let mut answers = Vec::new(alloc);
    answers.push((*d, verdict))?;
    Ok(answers)
}

// The first place from this one on in which the box is split, or the number of places if one answer is right of all.
fn split_place(refs: &RefPair, d: &Dirs, verdict: &Verdict, from: usize) -> usize
    requires refs { IsRefPair refs.now }
    requires vector { IsVectorOf refs.now d.now }
    requires exact { IfPair verdict.now (λ x y. IsExactClass refs.now) }
    requires from { from ≤ refs.now.common }
    ensures from { from ≤ result }
    ensures within { result ≤ refs.now.common }
    ensures trips { (IsTripless verdict.now × (result ≡ refs.now.common)) ⊎ InSkipped from result (HasRoom refs.now) }
    ensures free { InSkipped from result (λ m. IfKept verdict.now (λ w. IsFree refs.now m)) }
{
    let common = usize::from(refs.common);
    if is_tripless(verdict) {
        return common;
    }
    let first = match verdict {
        Verdict::Never(word) => open_place(refs, d, *word, from),
        Verdict::Pair(_, _, _) | Verdict::Assumed(_) => common,
    };
    next_place(refs, verdict, first, from)
}

/// The answers to all vectors in a box that has `*` from this place on. A word that is given is that of a box round it,
/// which is dropped, and so this one too; it is the word of this one where no loop lacks iterations.
pub fn merged(
    alloc: Global,
    refs: &RefPair,
    d: &Dirs,
    place: usize,
    known: Option<Test>,
) -> Result<Vec<Answer>, Memory>
    requires refs { IsRefPair refs.now }
    requires starred { IsOpenBox refs.now d.now place }
    requires known { MatchOption known (IsFreeBefore refs.now d.now place) (λ w. IsDroppedBox refs.now d.now w) }
    ensures { IfOk result (λ answers. AreUnder refs.now d.now place answers.items) }
{
    let verdict = box_verdict(refs, d, known);
    let split = split_place(refs, d, &verdict, place);
    if split == usize::from(refs.common) {
        return one_box(alloc, d, verdict);
    }
    let word = word_of(&verdict);
    let before = merged(alloc, refs, &with_dir(d, split, Dir::Lt), split + 1, word)?;
    let same = merged(alloc, refs, &with_dir(d, split, Dir::Eq), split + 1, word)?;
    let after = merged(alloc, refs, &with_dir(d, split, Dir::Gt), split + 1, word)?;
    merged_of(alloc, before, same.as_slice(), after.as_slice(), split)
}
