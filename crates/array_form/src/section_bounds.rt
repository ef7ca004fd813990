//! Sections of linear subscripts.
ghost use Rattle.std.specs.Prelude.{◌≡◌, ◌≤◌, ◌<◌, ◌++◌, ◌^◌, ℤ, IfOk, Some, length, map, pos, slice_set};
ghost use Rattle.tree.specs.View.{expression_of, subscript_of};
ghost use Rattle.subscripts.specs.Shapes.{IsForm};
ghost use Rattle.linear_forms.specs.Expressed.{variables};
ghost use Rattle.linear_forms.specs.Linear.{Form, constant_form, limited, multiple, sum};
ghost use Rattle.linear_forms.specs.Affines.{IsAffineOf, IsFound};
ghost use Rattle.array_form.specs.forms.Forms.{section, sum_text, form_of_trip};
ghost use Rattle.array_form.specs.forms.Loops.{form_names_of};
ghost use Rattle.array_form.specs.holds.Surroundings.{counted_of, form_trip_of};
ghost use Rattle.array_form.specs.holds.View.{surroundings_view};
ghost use Rattle.array_form.specs.Loops.{HasPlaces, IsLoopOf};
ghost use Rattle.array_form.specs.Texts.{lower_of, upper_of};

use crate::holds::{CountedLoop, Surroundings, loop_names};
use crate::loops_in_text::place_of;
use crate::trips::{number_text, trip_text, two};
use linear_forms::{combined, express};
use nest::Trip;
use std::alloc::Global;
use subscripts::Affine;
use tree::{Expr, Memory, Op, Seq, Sub};

const ONE: Affine = Affine {
    loops: [0; 7],
    syms: [(0, 0); 8],
    constant: 1,
};

// The form without the loop in this place.
fn without(form: &Affine, place: usize) -> Affine
    requires { place < 7 }
    ensures { result ≡ record form.now { loops = slice_set form.now.loops place (pos 0) } }
{
    let mut loops = form.loops;
    loops[place] = 0;
    Affine {
        loops,
        syms: form.syms,
        constant: form.constant,
    }
}

// A trip as a form; a divided one has a place behind the names.
fn trip_form(a: &Surroundings, trip: Trip) -> Affine
    requires places { HasPlaces a.now }
    requires trip { IsForm (length a.now.loops) trip.top }
    ensures { IsAffineOf (length a.now.loops) (form_of_trip (form_names_of (surroundings_view a.now))
        (form_trip_of (length a.now.loops) trip)) result }
{
    if trip.by.unsigned_abs() == 1 {
        return trip.top;
    }
    let mut syms = [(0, 0); 8];
    syms[0] = (a.symbols.len() as u16, 1);
    Affine {
        loops: [0; 7],
        syms,
        constant: 0,
    }
}

// The text of a sum of two forms, by its form where it is within the limits.
fn sum_text(
    alloc: Global,
    a: &Surroundings,
    trips: &Seq<Expr>,
    first: Expr,
    whole: Option<Affine>,
    rest: &Affine,
) -> Result<Expr, Memory>
    requires { length a.now.loops ≤ 7 }
    ensures { (f r : Form) → IsFound (length a.now.loops) (limited (length a.now.loops) (Some (sum f r))) whole
        → IsAffineOf (length a.now.loops) r rest.now
        → IfOk result (λ e. expression_of e ≡ sum_text (length a.now.loops)
        (variables (form_names_of (surroundings_view a.now)) ++ map expression_of trips.now)
        (expression_of first) f r) }
{
    let names = loop_names(alloc, a.loops.as_slice())?;
    match whole {
        Some(form) => express(alloc, &form, names.as_slice(), &a.symbols, trips.as_slice()),
        None => {
            let rest = express(alloc, rest, names.as_slice(), &a.symbols, trips.as_slice())?;
            two(alloc, Op::Add, first, rest)
        }
    }
}

// From the first iteration of a loop, whose coefficient is `times`.
fn lower_text(
    alloc: Global,
    a: &Surroundings,
    turns: &CountedLoop,
    times: i64,
    rest: &Affine,
) -> Result<Expr, Memory>
    requires places { HasPlaces a.now }
    requires turns { IsLoopOf a.now turns.now }
    ensures { (r : Form) → IsAffineOf (length a.now.loops) r rest.now
        → IfOk result (λ e. expression_of e ≡ lower_of a.now turns.now times r) }
{
    let mut trips = Seq::new(alloc);
    trips.push(trip_text(alloc, a, turns.trip)?)?;
    let first = number_text(alloc, times)?;
    sum_text(alloc, a, &trips, first, combined(rest, &ONE, times), rest)
}

// To the last one.
fn upper_text(
    alloc: Global,
    a: &Surroundings,
    turns: &CountedLoop,
    times: i64,
    rest: &Affine,
) -> Result<Expr, Memory>
    requires places { HasPlaces a.now }
    requires turns { IsLoopOf a.now turns.now }
    ensures { (r : Form) → IsAffineOf (length a.now.loops) r rest.now
        → IfOk result (λ e. expression_of e ≡ upper_of a.now turns.now times r) }
{
    let mut trips = Seq::new(alloc);
    trips.push(trip_text(alloc, a, turns.trip)?)?;
    let trip = trip_text(alloc, a, turns.trip)?;
    let first = two(alloc, Op::Mul, number_text(alloc, times)?, trip)?;
    let form = trip_form(a, turns.trip);
    sum_text(alloc, a, &trips, first, combined(rest, &form, times), rest)
}

/// The section that a linear subscript is, over one of the loops round a statement, which stands in it.
pub fn section(
    alloc: Global,
    a: &Surroundings,
    turns: &CountedLoop,
    form: &Affine,
) -> Result<Sub, Memory>
    requires places { HasPlaces a.now }
    requires turns { IsLoopOf a.now turns.now }
    ensures { (f : Form) → IsAffineOf (length a.now.loops) f form.now
        → IfOk result (λ p. subscript_of p ≡ section (surroundings_view a.now)
        (counted_of (length a.now.loops) turns.now) f) }
{
    let place = place_of(a.loops.as_slice(), turns.var);
    let times = form.loops[place];
    let rest = without(form, place);
    let lower = lower_text(alloc, a, turns, times, &rest)?;
    let upper = upper_text(alloc, a, turns, times, &rest)?;
    Ok(Sub::Part(lower, upper, number_text(alloc, times)?))
}
