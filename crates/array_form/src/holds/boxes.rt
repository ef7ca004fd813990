//! Linear subscripts over all iterations of loops with constant trips.
ghost use Rattle.std.specs.Prelude.{◌≡◌, ◌≤◌, ◌+◌, ◌*◌, ◌^◌, ◌==◌, ◌&&◌, ◌||◌, ◌+ℤ◌, ◌*ℤ◌, All, int_le, length, pos};
ghost use Rattle.std.specs.Prelude.{IfSome, unsigned_abs};
ghost use Rattle.std.specs.List.{list_all};
ghost use Rattle.std.specs.Ordering.{int_eq};
ghost use Rattle.subscripts.specs.Shapes.{IsSmall};
ghost use Rattle.tree.specs.View.{bounds_of};
ghost use Rattle.linear_forms.specs.Affines.{IsAffineOf};
ghost use Rattle.linear_forms.specs.Linear.{Form, not_zero};
ghost use Rattle.array_form.specs.holds.Bounds.{Term, is_constant_trip, is_in_box, terms_in};
ghost use Rattle.array_form.specs.holds.Boxes.{HasEnds, moved_by, trips_of, widened};
ghost use Rattle.array_form.specs.holds.Surroundings.{form_of_affine, form_trip_of};

use crate::holds::loops::CountedLoop;
use crate::trips::{are_unused, are_zero};
use nest::Trip;
use subscripts::Affine;
use tree::Dim;

/// The least and the greatest sum over all iterations.
#[derive(Clone, Copy, Debug)]
pub struct Ends {
    pub least: i128,
    pub greatest: i128,
}

pub(crate) fn is_nought(number: i64) -> bool
    ensures { result ≡ int_eq number (pos 0) }
{
    number == 0
}

// Whether no loop and no symbol has a coefficient in a form under so many loops.
fn has_no_term(depth: usize, form: &Affine) -> bool
    requires { depth ≤ 7 }
    ensures { result ≡ (not_zero (form_of_affine depth form.now).coefficients == 0) }
{
    are_zero(&form.loops[..depth]) && are_unused(&form.syms)
}

fn is_constant(depth: usize, trip: Trip) -> bool
    requires { depth ≤ 7 }
    ensures { result ≡ is_constant_trip (form_trip_of depth trip) }
{
    trip.by.unsigned_abs() == 1 && has_no_term(depth, &trip.top)
}

// Whether the trip is a constant where the loop has a coefficient.
fn may_be_in_box(depth: usize, time: i64, trip: Trip) -> bool
    requires { depth ≤ 7 }
    ensures { result ≡ (int_eq time (pos 0) || is_constant_trip (form_trip_of depth trip)) }
{
    is_nought(time) || is_constant(depth, trip)
}

// Whether the trips of all loops that have a coefficient are constants.
#[tactic(auto, using(crate::proofs::holds::BoxLaws::constant_laws))]
fn are_constant(depth: usize, loops: &[CountedLoop], times: &[i64]) -> bool
    requires { depth ≤ 7 }
    ensures { result
        ≡ list_all (λ (t : Term). is_constant_trip t.trip) (terms_in (trips_of depth loops.now) times.now) }
{
    let Some((turns, loops)) = loops.split_first() else {
        return true;
    };
    let Some((time, times)) = times.split_first() else {
        return true;
    };
    may_be_in_box(depth, *time, turns.trip) && are_constant(depth, loops, times)
}

fn last_term(time: i64, trip: i64) -> i128
    requires { IsSmall time }
    ensures value { result ≡ time *ℤ trip }
    ensures size { unsigned_abs result ≤ 2 ^ 103 }
{
    i128::from(time) * i128::from(trip)
}

fn at_most(number: i128, other: i128) -> bool
    ensures { result ≡ int_le number other }
{
    number <= other
}

fn plus(end: i128, term: i128) -> i128
    requires end { unsigned_abs end ≤ 7 * 2 ^ 103 }
    requires term { unsigned_abs term ≤ 2 ^ 103 }
    ensures value { result ≡ end +ℤ term }
    ensures size { unsigned_abs result ≤ unsigned_abs end + 2 ^ 103 }
{
    end + term
}

fn moved_by(ends: Ends, low: i128, high: i128) -> Ends
    requires least { unsigned_abs ends.least ≤ 7 * 2 ^ 103 }
    requires greatest { unsigned_abs ends.greatest ≤ 7 * 2 ^ 103 }
    requires low { unsigned_abs low ≤ 2 ^ 103 }
    requires high { unsigned_abs high ≤ 2 ^ 103 }
    ensures is { result ≡ moved_by ends low high }
    ensures least { unsigned_abs result.least ≤ unsigned_abs ends.least + 2 ^ 103 }
    ensures greatest { unsigned_abs result.greatest ≤ unsigned_abs ends.greatest + 2 ^ 103 }
{
    Ends {
        least: plus(ends.least, low),
        greatest: plus(ends.greatest, high),
    }
}

// With one more loop that has this coefficient and this trip; None where it doesn't turn.
fn widened(ends: Ends, time: i64, trip: i64) -> Option<Ends>
    requires time { IsSmall time }
    requires least { unsigned_abs ends.least ≤ 7 * 2 ^ 103 }
    requires greatest { unsigned_abs ends.greatest ≤ 7 * 2 ^ 103 }
    ensures is { result ≡ widened ends time trip }
    ensures sizes { IfSome result (λ e. (unsigned_abs e.least ≤ unsigned_abs ends.least + 2 ^ 103)
        × (unsigned_abs e.greatest ≤ unsigned_abs ends.greatest + 2 ^ 103)) }
{
    if !at_most(1, i128::from(trip)) {
        return None;
    }
    let first = i128::from(time);
    let last = last_term(time, trip);
    if at_most(first, last) {
        return Some(moved_by(ends, first, last));
    }
    Some(moved_by(ends, last, first))
}

// Of the sum of the loops by these coefficients; None where there is no iteration.
fn ends_over(depth: usize, loops: &[CountedLoop], times: &[i64]) -> Option<Ends>
    requires few { length loops.now ≤ 7 }
    requires small { All IsSmall times.now }
    ensures { HasEnds (terms_in (trips_of depth loops.now) times.now) result }
{
    let none = Ends {
        least: 0,
        greatest: 0,
    };
    let Some((turns, loops)) = loops.split_first() else {
        return Some(none);
    };
    let Some((time, times)) = times.split_first() else {
        return Some(none);
    };
    let Some(ends) = ends_over(depth, loops, times) else {
        return None;
    };
    if is_nought(*time) {
        return Some(ends);
    }
    widened(ends, *time, turns.trip.top.constant)
}

fn lie_between(ends: Ends, constant: i64, bounds: Dim) -> bool
    requires least { unsigned_abs ends.least ≤ 7 * 2 ^ 103 }
    requires greatest { unsigned_abs ends.greatest ≤ 7 * 2 ^ 103 }
    ensures { result
        ≡ (int_le bounds.lower (ends.least +ℤ constant) && int_le (ends.greatest +ℤ constant) bounds.upper) }
{
    let constant = i128::from(constant);
    if !at_most(i128::from(bounds.lower), plus(ends.least, constant)) {
        return false;
    }
    at_most(plus(ends.greatest, constant), i128::from(bounds.upper))
}

/// Whether a linear subscript has no symbol, and is within the bounds at all iterations of the loops that stand in it,
/// whose trips are constants.
pub fn is_in_box(loops: &[CountedLoop], form: &Affine, bounds: Dim) -> bool
    requires few { length loops.now ≤ 7 }
    requires small { All IsSmall form.now.loops }
    ensures { (f : Form) → IsAffineOf (length loops.now) f form.now
        → result ≡ is_in_box (trips_of (length loops.now) loops.now) f (bounds_of bounds) }
{
    if !are_unused(&form.syms) {
        return false;
    }
    if !are_constant(loops.len(), loops, &form.loops) {
        return false;
    }
    let Some(ends) = ends_over(loops.len(), loops, &form.loops) else {
        return true;
    };
    lie_between(ends, form.constant, bounds)
}
