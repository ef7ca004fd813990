//! The least meeting of two references of the exact class, loop by loop.
ghost use Rattle.std.specs.Prelude.{◌≡◌, ◌<◌, ◌↔◌, ℤ, false, All, IsTrue};
ghost use Rattle.dependence_tests.specs.delta_test.Constraints.{Allows, IsConstraint};
ghost use Rattle.dependence_tests.specs.loop_lines.OneLoop.{dir_of};
ghost use Rattle.dependence_tests.specs.loop_lines.Places.{loop_at};
ghost use Rattle.subscripts.specs.Classes.{HasOneLoop};
ghost use Rattle.subscripts.specs.Shapes.{IsPairing};
ghost use Rattle.direction_vectors.specs.vector_tests.Pairs.{IsLeastMeeting};
ghost use Rattle.direction_vectors.specs.vector_tests.Places.{HasEachDirection, IsLeastAllowed, IsLeastSolution};
ghost use Rattle.direction_vectors.specs.vector_tests.Places.{IsPlaceOf, LeavesSome, SolvesEach, loop_span};
ghost use Rattle.direction_vectors.specs.vector_tests.Refs.{IsRefPair, IsVectorOf};
ghost use Rattle.direction_vectors.specs.vector_tests.Ways.{IsExactClass, IsRefutedVector};

use crate::vector_tests::refs::RefPair;
use crate::vector_tests::trips::span_at;
use dependence_tests::delta_test::{Constraint, constraint_of, least_left, meet_of};
use dependence_tests::loop_lines::{LoopPlace, line_of, only_loop_of};
use subscripts::{Dir, Dirs, Pairing, Point, Span};

// Whether the pair has this one loop.
fn has_loop(p: &Pairing, at: LoopPlace) -> bool
    requires { IsPairing p.now }
    ensures { IsTrue result ↔ HasOneLoop p.now (loop_at at) }
{
    match only_loop_of(p) {
        Some(own) => own == at,
        None => false,
    }
}

// What the pairs of this loop leave of its iterations.
fn left_at(ps: &[Pairing], at: LoopPlace) -> Constraint
    requires { All IsPairing ps.now }
    ensures same { (i j : ℤ) → Allows result i j ↔ SolvesEach ps.now (loop_at at) i j }
    ensures constraint { IsConstraint result }
{
    let mut left = Constraint::Anywhere;
    for p in ps {
        if has_loop(p, at) {
            left = meet_of(left, constraint_of(line_of(p, at)));
        }
    }
    left
}

// Whether a constraint leaves iterations in this direction.
fn leaves_some(left: Constraint, trip: i64, dir: Dir) -> bool
    requires { IsConstraint left }
    ensures { IsTrue result → LeavesSome left trip dir }
{
    match least_left(left, i128::from(trip), dir) {
        Some(_) => true,
        None => false,
    }
}

impl RefPair {
    /// Whether the pairs that have the loop in this place leave iterations of it in each direction.
    pub fn has_each_direction(&self, place: usize) -> bool
        requires refs { IsRefPair self.now }
        requires place { place < self.now.common }
        ensures { IsTrue result → HasEachDirection self.now place }
    {
        let Some(trip) = span_at(&self.from_spans, place).last else {
            return false;
        };
        let left = left_at(self.subs.as_slice(), LoopPlace::Shared(place));
        if !leaves_some(left, trip, Dir::Lt) {
            return false;
        }
        if !leaves_some(left, trip, Dir::Eq) {
            return false;
        }
        leaves_some(left, trip, Dir::Gt)
    }

    // The least iterations of a loop that the vector and the pairs of this loop leave. There are some, where no test
    // refutes the vector.
    fn least_of(&self, d: &Dirs, at: LoopPlace, span: Span, dir: Dir) -> (i64, i64)
        requires refs { IsRefPair self.now }
        requires vector { IsVectorOf self.now d.now }
        requires exact { IsExactClass self.now }
        requires left { IsRefutedVector self.now d.now → ⊥ }
        requires at { IsPlaceOf self.now (loop_at at) }
        requires span { span ≡ loop_span self.now (loop_at at) }
        requires dir { dir ≡ dir_of d.now (loop_at at) }
        ensures { IsLeastSolution self.now d.now (loop_at at) result.0 result.1 }
    {
        let left = left_at(self.subs.as_slice(), at);
        let Some(trip) = span.last else {
            unreachable!()
        };
        let Some(both) = least_left(left, i128::from(trip), dir) else {
            unreachable!()
        };
        (both.i as i64, both.j as i64)
    }

    // The least iterations of the loops in one place.
    fn least_at(&self, d: &Dirs, place: usize) -> (i64, i64)
        requires refs { IsRefPair self.now }
        requires vector { IsVectorOf self.now d.now }
        requires exact { IsExactClass self.now }
        requires left { IsRefutedVector self.now d.now → ⊥ }
        requires place { place < 7 }
        ensures { IsLeastAllowed self.now d.now place result.0 result.1 }
    {
        let first = span_at(&self.from_spans, place);
        if place < usize::from(self.common) {
            return self.least_of(d, LoopPlace::Shared(place), first, d.at[place]);
        }
        let second = span_at(&self.to_spans, place);
        let (i, _) = self.least_of(d, LoopPlace::First(place), first, Dir::Any);
        let (_, j) = self.least_of(d, LoopPlace::Second(place), second, Dir::Any);
        (i, j)
    }

    /// The least pair of iterations at which the references meet, where the tests are exact and none refutes the
    /// vector.
    pub fn least_meeting(&self, d: &Dirs) -> (Point, Point)
        requires refs { IsRefPair self.now }
        requires vector { IsVectorOf self.now d.now }
        requires exact { IsExactClass self.now }
        requires left { IsRefutedVector self.now d.now → ⊥ }
        ensures { IsLeastMeeting self.now d.now result.0.at result.1.at }
    {
        let mut first = Point { at: [1; 7] };
        let mut second = first;
        for place in 0..7 {
            let (i, j) = self.least_at(d, place);
            first.at[place] = i;
            second.at[place] = j;
        }
        (first, second)
    }
}
