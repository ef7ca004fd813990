//! Loops without the iterations that a vector asks for.
ghost use Rattle.std.specs.Prelude.{◌≡◌, ◌<◌, ◌↔◌, ℤ, pos, false, List, IsTrue, slice_index_or};
ghost use Rattle.subscripts.specs.Iterations.{once};
ghost use Rattle.subscripts.specs.declared.affine.Span.{Span as Extent};
ghost use Rattle.direction_vectors.specs.vector_tests.Ways.{EndsBefore, HasNoTrip, IsCarrying, LacksTripAt};

use crate::vector_tests::refs::RefPair;
use subscripts::{Dir, Dirs, Span};
use tree::Seq;

/// The span in a place; past the loops that of the constant trip 1.
pub fn span_at(spans: &Seq<Span>, place: usize) -> Span
    ensures { result ≡ slice_index_or spans.now place once }
{
    match spans.get(place) {
        Some(span) => *span,
        None => Span {
            last: Some(1),
            fixed: true,
        },
    }
}

// No iteration is as late as this one.
fn ends_before(span: Span, iteration: i64) -> bool
    ensures { IsTrue result ↔ EndsBefore iteration span }
{
    match span.last {
        Some(last) => last < iteration,
        None => false,
    }
}

// The two iterations differ.
fn is_carrying(direction: Dir) -> bool
    ensures { IsTrue result ↔ IsCarrying direction }
{
    match direction {
        Dir::Lt | Dir::Gt => true,
        Dir::Eq | Dir::Any => false,
    }
}

impl RefPair {
    /// Whether a common loop has no second iteration.
    pub fn lacks_second(&self, place: usize) -> bool
        ensures { IsTrue result ↔ EndsBefore (pos 2) (slice_index_or self.now.from_spans place once) }
    {
        ends_before(span_at(&self.from_spans, place), 2)
    }

    fn lacks_trip_at(&self, d: &Dirs, place: usize) -> bool
        requires { place < 7 }
        ensures { IsTrue result ↔ LacksTripAt self.now d.now place }
    {
        let first = span_at(&self.from_spans, place);
        if ends_before(first, 1) {
            return true;
        }
        if ends_before(span_at(&self.to_spans, place), 1) {
            return true;
        }
        is_carrying(d.at[place]) && ends_before(first, 2)
    }

    /// Whether a loop round a reference has no iteration, or has one where the vector asks for two.
    pub fn has_no_trip(&self, d: &Dirs) -> bool
        ensures sound { IsTrue result → HasNoTrip self.now d.now }
        ensures complete { result ≡ false → HasNoTrip self.now d.now → ⊥ }
    {
        for place in 0..7 {
            if self.lacks_trip_at(d, place) {
                return true;
            }
        }
        false
    }
}
