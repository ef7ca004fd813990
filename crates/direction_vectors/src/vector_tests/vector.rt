//! The test of one vector.
ghost use Rattle.std.specs.Prelude.{◌≡◌, ◌↔◌, All, IsTrue};
ghost use Rattle.dependence_tests.specs.loop_lines.Verdicts.{IfPair, OnAssumed};
ghost use Rattle.subscripts.specs.Shapes.{IsPairing};
ghost use Rattle.direction_vectors.specs.vector_tests.Pairs.{IsLeastMeeting, NeverMeet};
ghost use Rattle.direction_vectors.specs.vector_tests.Refs.{IsRefPair, IsVectorOf};
ghost use Rattle.direction_vectors.specs.vector_tests.Ways.{IsExactClass, IsRefutedVector, IsZivOrSiv};
ghost use Rattle.direction_vectors.specs.vector_tests.Words.{IfKept, IfNever, IsDropWord, IsEdgeWord};

use crate::vector_tests::refs::RefPair;
use crate::vector_tests::words::edge_word;
use subscripts::{Class, Dirs, Pairing, Span, Verdict, classify};

fn are_fixed(spans: &[Span]) -> bool
    ensures { IsTrue result ↔ All (λ s. IsTrue s.fixed) spans.now }
{
    spans.iter().all(|span| span.fixed)
}

// Whether the pair has no loop, or one.
fn is_ziv_or_siv(p: &Pairing) -> bool
    requires { IsPairing p.now }
    ensures { IsTrue result ↔ IsZivOrSiv p.now }
{
    match classify(p) {
        Class::Miv | Class::Unknown => false,
        Class::Ziv | Class::Strong | Class::WeakZero | Class::WeakCrossing | Class::GeneralSiv =>
            true,
    }
}

// Whether each pair has no loop, or one.
fn are_ziv_or_siv(ps: &[Pairing]) -> bool
    requires { All IsPairing ps.now }
    ensures { IsTrue result ↔ All IsZivOrSiv ps.now }
{
    for p in ps {
        if !is_ziv_or_siv(p) {
            return false;
        }
    }
    true
}

impl RefPair {
    /// Whether the tests decide each vector.
    pub fn is_exact(&self) -> bool
        requires { IsRefPair self.now }
        ensures { IsTrue result ↔ IsExactClass self.now }
    {
        are_fixed(self.from_spans.as_slice())
            && are_fixed(self.to_spans.as_slice())
            && are_ziv_or_siv(self.subs.as_slice())
    }
}

/// Tests one vector of the loops round both references.
pub fn test_vector(refs: &RefPair, d: &Dirs) -> Verdict
    requires refs { IsRefPair refs.now }
    requires vector { IsVectorOf refs.now d.now }
    ensures never { IfNever result (λ w. NeverMeet refs.now d.now) }
    ensures dropped { IfNever result (λ w. IsDropWord refs.now d.now w) }
    ensures pair { IfPair result (λ x y. IsExactClass refs.now × IsLeastMeeting refs.now d.now x.at y.at) }
    ensures assumed { OnAssumed result ((IsExactClass refs.now → ⊥) × (IsRefutedVector refs.now d.now → ⊥)) }
    ensures kept { IfKept result (λ w. IsEdgeWord refs.now.subs w) }
{
    if let Some(word) = refs.drop_word(d) {
        return Verdict::Never(word);
    }
    let word = edge_word(refs.subs.as_slice());
    if !refs.is_exact() {
        return Verdict::Assumed(word);
    }
    let (first, second) = refs.least_meeting(d);
    Verdict::Pair(first, second, word)
}
