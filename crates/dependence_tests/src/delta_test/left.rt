//! What is left of a subscript pair once iterations have been put in.
ghost use Rattle.std.specs.Prelude.{◌≡◌, ◌<◌, ◌≤◌, ◌↔◌, ℕ, pos, All, IsTrue, MatchOption, length};
ghost use Rattle.subscripts.specs.Classes.{Cancels, Matters, first_of, second_of, at_place};
ghost use Rattle.subscripts.specs.Shapes.{HasSmallSymbols};
ghost use Rattle.dependence_tests.specs.loop_lines.OneLoop.{HasNoneAt, IsWithinPlaces};
ghost use Rattle.dependence_tests.specs.loop_lines.Places.{loop_at};
ghost use Rattle.dependence_tests.specs.delta_test.Lefts.{IsAlone, IsLeft};
ghost use Rattle.dependence_tests.specs.delta_test.Reductions.{IsSized};

use crate::delta_test::put::Reduced;
use crate::loop_lines::line_points::Line;
use crate::loop_lines::{LoopPlace, mattering_at};
use subscripts::Pairing;

/// What is left of a reduced subscript pair.
#[derive(Clone, Copy, Debug)]
pub enum Left {
    /// No loop: the first side is above the second by so much.
    Constant(i128),
    /// One loop, whose two iterations lie on this line.
    Along(LoopPlace, Line),
    /// Several loops, symbols that don't cancel, or too large a number.
    More,
}

/// The first loop that has a coefficient.
fn first_mattering(p: &Pairing) -> Option<LoopPlace>
    ensures { MatchOption result ((k : ℕ) → k < 7 → HasNoneAt p.now k) (λ at. Matters p.now (loop_at at)) }
{
    for place in 0..7 {
        if let Some(found) = mattering_at(p, place) {
            return Some(found);
        }
    }
    None
}

/// All numbers are 0 but for that in one place.
fn are_zero_but(numbers: &[i64], one: usize) -> bool
    ensures { IsTrue result → (k : ℕ) → k < length numbers.now → (k ≡ one → ⊥) → at_place numbers.now k ≡ pos 0 }
{
    for (place, number) in numbers.iter().enumerate() {
        if place != one && *number != 0 {
            return false;
        }
    }
    true
}

fn are_zero(numbers: &[i64]) -> bool
    ensures { IsTrue result ↔ All (λ z. z ≡ pos 0) numbers.now }
{
    numbers.iter().all(|z| *z == 0)
}

/// No other loop has a coefficient.
fn is_alone(p: &Pairing, at: LoopPlace) -> bool
    requires { IsWithinPlaces (loop_at at) }
    ensures { IsTrue result → IsAlone p.now (loop_at at) }
{
    match at {
        LoopPlace::Shared(place) => {
            are_zero_but(&p.from.loops, place) && are_zero_but(&p.to.loops, place)
        }
        LoopPlace::First(place) => are_zero_but(&p.from.loops, place) && are_zero(&p.to.loops),
        LoopPlace::Second(place) => are_zero(&p.from.loops) && are_zero_but(&p.to.loops, place),
    }
}

/// The loop's coefficients in both subscripts; 0 in that of a reference that it doesn't stand round.
fn coefficients_of(p: &Pairing, at: LoopPlace) -> (i64, i64)
    requires { IsWithinPlaces (loop_at at) }
    ensures first { result.0 ≡ first_of p.now (loop_at at) }
    ensures second { result.1 ≡ second_of p.now (loop_at at) }
{
    match at {
        LoopPlace::Shared(place) => (p.from.loops[place], p.to.loops[place]),
        LoopPlace::First(place) => (p.from.loops[place], 0),
        LoopPlace::Second(place) => (0, p.to.loops[place]),
    }
}

// The size that no number of a line is above.
const LARGEST: u128 = 1 << 41;

/// What is left where this loop matters.
fn left_along(r: &Reduced, at: LoopPlace) -> Left
    requires sized { IsSized r.now }
    requires cancels { Cancels r.now.pairing }
    requires place { IsWithinPlaces (loop_at at) }
    requires matters { Matters r.now.pairing (loop_at at) }
    ensures { IsLeft r.now result }
{
    if !is_alone(&r.pairing, at) || r.constant.unsigned_abs() > LARGEST {
        return Left::More;
    }
    let (first, second) = coefficients_of(&r.pairing, at);
    let line = Line {
        first: i128::from(first),
        second: -i128::from(second),
        constant: -r.constant,
    };
    Left::Along(at, line)
}

/// What is left of a reduced subscript pair.
pub fn left_of(r: &Reduced) -> Left
    requires sized { IsSized r.now }
    requires symbols { HasSmallSymbols r.now.pairing }
    requires common { r.now.pairing.common ≤ 7 }
    ensures { IsLeft r.now result }
{
    if !r.pairing.symbols_cancel() {
        return Left::More;
    }
    if are_zero(&r.pairing.from.loops) && are_zero(&r.pairing.to.loops) {
        return Left::Constant(r.constant);
    }
    match first_mattering(&r.pairing) {
        Some(at) => left_along(r, at),
        None => Left::More,
    }
}
