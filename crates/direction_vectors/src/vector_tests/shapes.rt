//! Whether two references keep what callers have to keep.
ghost use Rattle.std.specs.Prelude.{◌≡◌, ℕ, ◌≤◌, ◌<◌, ◌↔◌, All, IsSome, IsTrue, length, slice_index_or};
ghost use Rattle.dependence_tests.specs.loop_lines.OneLoop.{HasSevenLists};
ghost use Rattle.subscripts.specs.Iterations.{once};
ghost use Rattle.subscripts.specs.declared.affine.Span.{Span as Extent};
ghost use Rattle.direction_vectors.specs.vector_tests.Refs.{IsRefPair, IsSubscriptOf, padded};

use crate::vector_tests::refs::RefPair;
use crate::vector_tests::trips::span_at;
use subscripts::{Pairing, Span};
use tree::Seq;

// A constant trip is known.
fn have_ends(spans: &[Span]) -> bool
    ensures { IsTrue result ↔ All (λ s. IsTrue s.fixed → IsSome s.last) spans.now }
{
    spans.iter().all(|span| !span.fixed || span.last.is_some())
}

// The same spans, and then those of the constant trip 1.
fn are_padded(spans: &[Span; 7], loops: &Seq<Span>) -> bool
    requires { length loops.now ≤ 7 }
    ensures { IsTrue result → spans.now ≡ padded loops.now }
{
    for place in 0..7 {
        if spans[place] != span_at(loops, place) {
            return false;
        }
    }
    true
}

impl RefPair {
    // Both references have the same spans in the common loops.
    fn has_common_spans(&self) -> bool
        ensures { IsTrue result
            → (k : ℕ) → k < self.now.common
            → slice_index_or self.now.from_spans k once ≡ slice_index_or self.now.to_spans k once }
    {
        for place in 0..usize::from(self.common) {
            if span_at(&self.from_spans, place) != span_at(&self.to_spans, place) {
                return false;
            }
        }
        true
    }

    // The pair is one of subscripts of these references.
    fn has_subscript(&self, p: &Pairing) -> bool
        requires from { length self.now.from_spans ≤ 7 }
        requires to { length self.now.to_spans ≤ 7 }
        ensures { IsTrue result → IsSubscriptOf self.now p.now }
    {
        // read so that the arrays' lengths are known
        let _span = p.from_spans[0];
        if p.common != self.common || usize::from(p.from_depth) != self.from_spans.len() {
            return false;
        }
        if usize::from(p.to_depth) != self.to_spans.len() || !p.is_valid() {
            return false;
        }
        if !are_padded(&p.from_spans, &self.from_spans) {
            return false;
        }
        are_padded(&p.to_spans, &self.to_spans)
    }

    // Each pair is one of subscripts of these references.
    fn has_subscripts(&self) -> bool
        requires from { length self.now.from_spans ≤ 7 }
        requires to { length self.now.to_spans ≤ 7 }
        ensures { IsTrue result → All (IsSubscriptOf self.now) self.now.subs }
    {
        for p in self.subs.as_slice() {
            if !self.has_subscript(p) {
                return false;
            }
        }
        true
    }

    /// Whether it keeps what two references have to: at most seven subscripts and seven loops round each, common loops
    /// with equal spans, and subscript pairs with the same loops.
    pub fn is_valid(&self) -> bool
        ensures { IsTrue result → IsRefPair self.now }
    {
        let common = usize::from(self.common);
        let (from_depth, to_depth) = (self.from_spans.len(), self.to_spans.len());
        if self.subs.len() > 7 || from_depth > 7 || to_depth > 7 {
            return false;
        }
        if common > from_depth || common > to_depth {
            return false;
        }
        if !have_ends(self.from_spans.as_slice()) || !have_ends(self.to_spans.as_slice()) {
            return false;
        }
        self.has_common_spans() && self.has_subscripts()
    }
}
