//! The one loop of a pairing, and its line. With `first * i + b = second * j + d` at the iterations i and j, the line
//! is `first * i - second * j = d - b`. A loop that stands round one reference alone has no iteration round the other
//! one; there 1 stands for it, with the coefficient 0.
ghost use Rattle.std.specs.Prelude.{◌≡◌, ℕ, ◌<◌, ◌≤◌, ◌^◌, pos, Some, false, unsigned_abs, IsTrue, IsSome, MatchOption};
ghost use Rattle.subscripts.specs.Classes.{Loop, IsLoopOf, Matters, HasOneLoop, first_of, second_of, span_of};
ghost use Rattle.subscripts.specs.Shapes.{IsPairing, AreDirsOf};
ghost use Rattle.dependence_tests.specs.loop_lines.line_points.Crossings.{IsSmallLine};
ghost use Rattle.dependence_tests.specs.loop_lines.Places.{loop_at};
ghost use Rattle.dependence_tests.specs.loop_lines.OneLoop.{IsWithinPlaces, dir_of, first_point, second_point};
ghost use Rattle.dependence_tests.specs.loop_lines.OneLoop.{IsLineOf, HasNoneAt, HasSevenLists, HasSevenPlaces};

use crate::loop_lines::line_points::Line;
use subscripts::{Class, Dir, Dirs, Pairing, Point, Span, classify};

/// Where a loop stands: round both references, or further in round the first or the second alone.
#[derive(Clone, Copy, Debug, PartialEq, Eq)]
pub enum LoopPlace {
    Shared(usize),
    First(usize),
    Second(usize),
}

/// The span of a loop, and how its two iterations stand to each other.
#[derive(Clone, Copy, Debug)]
pub struct Bounds {
    pub span: Span,
    pub dir: Dir,
}

/// A loop at this place that has a coefficient.
pub fn mattering_at(p: &Pairing, place: usize) -> Option<LoopPlace>
    requires { place < 7 }
    ensures { MatchOption result (HasNoneAt p.now place) (λ l. Matters p.now (loop_at l)) }
{
    let first = p.from.loops[place];
    let second = p.to.loops[place];
    if place < usize::from(p.common) {
        if first != 0 {
            return Some(LoopPlace::Shared(place));
        }
        if second != 0 {
            return Some(LoopPlace::Shared(place));
        }
        return None;
    }
    if first != 0 {
        return Some(LoopPlace::First(place));
    }
    if second != 0 {
        return Some(LoopPlace::Second(place));
    }
    None
}

/// The one loop of a pairing that has one.
pub fn one_loop_of(p: &Pairing) -> LoopPlace
    requires pairing { IsPairing p.now }
    requires one { (l : Loop) × HasOneLoop p.now l }
    ensures { HasOneLoop p.now (loop_at result) }
{
    for place in 0..7 {
        if let Some(found) = mattering_at(p, place) {
            return found;
        }
    }
    unreachable!()
}

/// The loop of a pairing of an SIV class.
pub fn only_loop_of(p: &Pairing) -> Option<LoopPlace>
    requires { IsPairing p.now }
    ensures { MatchOption result ((l : Loop) → HasOneLoop p.now l → ⊥) (λ at. HasOneLoop p.now (loop_at at)) }
{
    match classify(p) {
        Class::Strong | Class::WeakZero | Class::WeakCrossing | Class::GeneralSiv => Some(
            one_loop_of(p),
        ),
        Class::Ziv | Class::Miv | Class::Unknown => None,
    }
}

/// The loop's coefficients in both subscripts; 0 in that of a reference that it doesn't stand round.
pub fn coefficients_at(p: &Pairing, at: LoopPlace) -> (i64, i64)
    requires pairing { IsPairing p.now }
    requires at { IsLoopOf p.now (loop_at at) }
    ensures first { result.0 ≡ first_of p.now (loop_at at) }
    ensures second { result.1 ≡ second_of p.now (loop_at at) }
    ensures first_size { unsigned_abs result.0 ≤ 2 ^ 40 }
    ensures second_size { unsigned_abs result.1 ≤ 2 ^ 40 }
    ensures places { HasSevenLists p.now }
{
    match at {
        LoopPlace::Shared(place) => (p.from.loops[place], p.to.loops[place]),
        LoopPlace::First(place) => (p.from.loops[place], 0),
        LoopPlace::Second(place) => (0, p.to.loops[place]),
    }
}

/// The trip of a loop, where it is a constant.
pub fn constant_trip(span: Span) -> Option<i64>
    requires { IsTrue span.fixed → IsSome span.last }
    ensures { MatchOption result (span.fixed ≡ false) (λ n. IsTrue span.fixed × (span.last ≡ Some n)) }
{
    if span.fixed { span.last } else { None }
}

/// What bounds the loop's two iterations: its span and its direction. Nothing is asked of a loop that stands round one
/// reference alone.
pub fn bounds_at(p: &Pairing, d: &Dirs, at: LoopPlace) -> Bounds
    requires pairing { IsPairing p.now }
    requires dirs { AreDirsOf p.now d.now }
    requires at { IsLoopOf p.now (loop_at at) }
    ensures span { result.span ≡ span_of p.now (loop_at at) }
    ensures dir { result.dir ≡ dir_of d.now (loop_at at) }
    // the arrays have seven places each
    ensures places { HasSevenPlaces p.now d.now }
{
    let (span, place) = match at {
        LoopPlace::Shared(place) => (p.from_spans[place], place),
        LoopPlace::First(place) => (p.from_spans[place], place),
        LoopPlace::Second(place) => (p.to_spans[place], place),
    };
    Bounds {
        span,
        dir: d.at[place],
    }
}

/// The line of a pairing that has this loop alone.
pub fn line_of(p: &Pairing, at: LoopPlace) -> Line
    requires pairing { IsPairing p.now }
    requires one { HasOneLoop p.now (loop_at at) }
    ensures line { IsLineOf p.now (loop_at at) result }
    ensures small { IsSmallLine result }
    ensures places { HasSevenLists p.now }
{
    let (first, second) = coefficients_at(p, at);
    Line {
        first: i128::from(first),
        second: -i128::from(second),
        constant: i128::from(p.to.constant) - i128::from(p.from.constant),
    }
}

/// The iterations round either reference in which this loop has these two and each other loop has its first one.
pub fn points_at(at: LoopPlace, i: i64, j: i64) -> (Point, Point)
    requires { IsWithinPlaces (loop_at at) }
    ensures first { result.0.at ≡ first_point (loop_at at) i }
    ensures second { result.1.at ≡ second_point (loop_at at) j }
{
    let mut first = Point { at: [1; 7] };
    let mut second = first;
    match at {
        LoopPlace::Shared(place) => {
            first.at[place] = i;
            second.at[place] = j;
        }
        LoopPlace::First(place) => first.at[place] = i,
        LoopPlace::Second(place) => second.at[place] = j,
    }
    (first, second)
}
