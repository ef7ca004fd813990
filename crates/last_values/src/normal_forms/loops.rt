//! Loops from 1 by 1.
ghost use Rattle.std.specs.Prelude.{◌≡◌, ◌≤◌, ◌<◌, ◌+◌, ◌++◌, ◌∷◌, ℕ, pos, nat_abs, length, map, IfOk, OnOk, neg_ℤ};
ghost use Rattle.std.specs.Prelude.{negsuc, IsTrue, ◌^◌, ◌<ℤ◌, IfSome, OnSome};
ghost use Rattle.tree.specs.View.{expression_of};
ghost use Rattle.linear_forms.specs.Linear.{is_small};
ghost use Rattle.nest.specs.View.{loop_of};
ghost use Rattle.last_values.specs.normal_forms.Combinations.{without_loops, times, number_form};
ghost use Rattle.last_values.specs.normal_forms.NormalLoops.{counter_name, variables_of, variable_values_from};
ghost use Rattle.last_values.specs.normal_forms.NormalLoops.{with_counters, bound_form};
ghost use Rattle.last_values.specs.normal_forms.NormalLoops.{loop_form, symbol_form, has_no_loops, is_constant};
ghost use Rattle.last_values.specs.normal_forms.NormalLoops.{trip_of, trip_form};
ghost use Rattle.last_values.specs.normal_forms.NormalLoops.{is_known, is_positive, is_suitable, plus_number};
ghost use Rattle.last_values.specs.normal_forms.NormalLoops.{plus_multiple};
ghost use Rattle.last_values.specs.normal_forms.NormalLoops.{trip_by, normal_loop, one_at, has_no_symbols, sign_of};
ghost use Rattle.last_values.specs.normal_forms.NormalLoops.{forms_by_trip, forms_by_first, forms_of};

use crate::normal_forms::combinations::{Multiple, combination, is_small};
use crate::normal_forms::places::Place;
use itoa::Buffer;
use linear_forms::linear;
use nest::{Loop, Trip};
use std::alloc::Global;
use subscripts::Affine;
use tree::{Expr, Memory, Name, Seq};

/// A loop of a nest as a loop from 1 by 1: its variable in the source, its counter, its increment in the source, and
/// linear forms over the counters of the loops round it: of its lower bound, of that less the increment, of its
/// variable (also over its own counter), of its trip, and of its variable's last value. A divided trip stands in this
/// last form in the place behind the symbols.
#[derive(Clone, Copy)]
pub struct NormalLoop {
    pub variable: Name,
    pub counter: Name,
    pub step: i64,
    pub first: Affine,
    pub below: Affine,
    pub value: Affine,
    pub trip: Trip,
    pub end: Affine,
}

#[tactic(auto, using(crate::proofs::NormalForms::Counters::counter_is_name))]
fn counter_name(alloc: Global, number: u32) -> Result<Name, Memory>
    ensures { IfOk result (λ name. name ≡ counter_name number) }
{
    let mut text = Vec::from_slice(alloc, b"FV_LOOP_")?;
    text.extend_from_slice(Buffer::new().format(number).as_bytes())?;
    match Name::read(text.as_slice()) {
        Some(name) => Ok(name),
        None => unreachable!(),
    }
}

fn variables_of(alloc: Global, round: &[NormalLoop]) -> Result<Vec<Name>, Memory>
    ensures { IfOk result (λ names. names.items ≡ variables_of round.now) }
{
    let mut names = Vec::new(alloc);
    for turns in round {
        names.push(turns.variable)?;
    }
    Ok(names)
}

fn add_values(
    terms: &mut Vec<Multiple>,
    place: usize,
    form: &Affine,
    round: &[NormalLoop],
) -> Result<(), Memory>
    requires { place + length round.now < 2 ^ 64 }
    ensures values { OnOk result (terms.new.items ≡ terms.old.items ++ variable_values_from place form.now round.now) }
    ensures count { OnOk result (length terms.new.items ≡ length terms.old.items + length round.now) }
{
    let Some((first, rest)) = round.split_first() else {
        return Ok(());
    };
    let times = Place::Loop(place).of(form);
    let form_of_first = first.value;
    terms.push(Multiple {
        times,
        form: form_of_first,
    })?;
    add_values(terms, place + 1, form, rest)
}

pub(crate) fn without_loops(form: &Affine) -> Affine
    ensures { result ≡ without_loops form.now }
{
    let syms = form.syms;
    Affine {
        loops: [0; 7],
        syms,
        constant: form.constant,
    }
}

fn with_counters(
    alloc: Global,
    round: &[NormalLoop],
    form: &Affine,
) -> Result<Vec<Multiple>, Memory>
    requires { length round.now < 7 }
    ensures values { IfOk result (λ terms. terms.items ≡ with_counters round.now form.now) }
    ensures count { IfOk result (λ terms. length terms.items ≡ length round.now + 1) }
{
    let mut terms = Vec::new(alloc);
    add_values(&mut terms, 0, form, round)?;
    terms.push(Multiple {
        times: 1,
        form: without_loops(form),
    })?;
    Ok(terms)
}

#[tactic(auto, using(crate::proofs::NormalForms::Bounds::bound_laws))]
fn bound_form(
    alloc: Global,
    symbols: &Seq<Name>,
    round: &[NormalLoop],
    bound: &Expr,
    more: &[Multiple],
) -> Result<Option<Affine>, Memory>
    requires deep { length round.now < 7 }
    requires symbols { length symbols.now ≤ 1000 }
    requires more { length more.now ≤ 1 }
    ensures { IfOk result (λ form. form
        ≡ bound_form symbols.now round.now (expression_of bound.now) more.now) }
{
    let variables = variables_of(alloc, round)?;
    let Some(form) = linear(bound, variables.as_slice(), symbols) else {
        return Ok(None);
    };
    let mut terms = with_counters(alloc, round, &form)?;
    terms.extend_from_slice(more)?;
    Ok(combination(terms.as_slice(), symbols.len() as u16))
}

fn number_form(number: i64) -> Affine
    ensures { result ≡ number_form number }
{
    Affine {
        loops: [0; 7],
        syms: [(0, 0); 8],
        constant: number,
    }
}

fn one_at(place: usize, at: usize) -> i64
    ensures { result ≡ one_at place at }
{
    if at == place { 1 } else { 0 }
}

fn loop_form(place: usize) -> Affine
    ensures { result ≡ loop_form place }
{
    Affine {
        loops: [
            one_at(place, 0),
            one_at(place, 1),
            one_at(place, 2),
            one_at(place, 3),
            one_at(place, 4),
            one_at(place, 5),
            one_at(place, 6),
        ],
        syms: [(0, 0); 8],
        constant: 0,
    }
}

fn symbol_form(place: u16) -> Affine
    ensures { result ≡ symbol_form place }
{
    Affine {
        loops: [0; 7],
        syms: [
            (place, 1),
            (0, 0),
            (0, 0),
            (0, 0),
            (0, 0),
            (0, 0),
            (0, 0),
            (0, 0),
        ],
        constant: 0,
    }
}

pub(crate) fn has_no_loops(form: &Affine) -> bool
    ensures { result ≡ has_no_loops form.now }
{
    form.loops.iter().all(|number| *number == 0)
}

fn has_no_symbols(form: &Affine) -> bool
    ensures { result ≡ has_no_symbols form.now }
{
    form.syms.iter().all(|term| term.1 == 0)
}

fn is_constant(form: &Affine) -> bool
    ensures { result ≡ is_constant form.now }
{
    has_no_loops(form) && has_no_symbols(form)
}

pub(crate) fn trip_of(form: Affine, by: i64) -> Trip
    requires { pos 0 <ℤ by }
    ensures exact { result ≡ trip_of form by }
    ensures divisor { pos 0 <ℤ result.by }
{
    if is_constant(&form) {
        return Trip {
            top: number_form(form.constant / by),
            by: 1,
        };
    }
    Trip { top: form, by }
}

/// A trip as a form, in which a divided trip has this place.
pub(crate) fn trip_form(place: u16, trip: &Trip) -> Affine
    ensures { result ≡ trip_form place trip.now }
{
    if trip.by == 1 {
        trip.top
    } else {
        symbol_form(place)
    }
}

/// Whether a trip is a constant.
pub fn is_known(trip: &Trip) -> bool
    ensures { result ≡ is_known trip.now }
{
    trip.by == 1 && is_constant(&trip.top)
}

/// Whether a trip is a positive constant.
pub fn is_positive(trip: &Trip) -> bool
    ensures { result ≡ is_positive trip.now }
{
    is_known(trip) && trip.top.constant > 0
}

fn is_suitable(step: i64, round: &[NormalLoop]) -> bool
    ensures { result ≡ is_suitable step round.now }
{
    step != 0 && is_small(step) && round.len() < 7
}

pub(crate) fn plus_multiple(count: u16, form: Affine, times: i64, other: Affine) -> Option<Affine>
    ensures { result ≡ plus_multiple count form times other }
{
    combination(
        &[Multiple { times: 1, form }, Multiple { times, form: other }],
        count,
    )
}

fn plus_number(count: u16, form: Affine, number: i64) -> Option<Affine>
    ensures { result ≡ plus_number count form number }
{
    plus_multiple(count, form, number, number_form(1))
}

fn size_of(step: i64) -> i64
    requires { IsTrue (is_small step) }
    ensures { result ≡ pos (nat_abs step) }
{
    step.abs()
}

fn negated(step: i64) -> i64
    requires { IsTrue (is_small step) }
    ensures { result ≡ neg_ℤ step }
{
    -step
}

fn sign_of(step: i64) -> i64
    ensures { result ≡ sign_of step }
{
    if step < 0 { -1 } else { 1 }
}

fn trip_by(count: u16, step: i64, form: Affine) -> Option<Trip>
    requires small { IsTrue (is_small step) }
    requires other { ¬ (step ≡ pos 0) }
    ensures exact { result ≡ trip_by count step form }
    ensures divisor { IfSome result (λ trip. pos 0 <ℤ trip.by) }
{
    let times = sign_of(step);
    let Some(top) = combination(&[Multiple { times, form }], count) else {
        return None;
    };
    Some(trip_of(top, size_of(step)))
}

#[tactic(auto, unfolding(crate::specs::normal_forms::NormalLoops::forms_by_trip))]
fn forms_by_trip(
    alloc: Global,
    symbols: &Seq<Name>,
    turns: &Loop,
    first: Affine,
    below: Affine,
    value: Affine,
    top: Affine,
) -> Result<Option<NormalLoop>, Memory>
    requires symbols { length symbols.now ≤ 1000 }
    requires small { IsTrue (is_small turns.now.step) }
    requires other { ¬ (turns.now.step ≡ pos 0) }
    ensures exact { IfOk result (λ normal. normal
        ≡ forms_by_trip symbols.now (loop_of turns.now) first below value top) }
    ensures divisor { IfOk result (λ normal. IfSome normal (λ r. pos 0 <ℤ r.trip.by)) }
{
    let count = symbols.len() as u16;
    let Some(trip) = trip_by(count, turns.step, top) else {
        return Ok(None);
    };
    let Some(end) = plus_multiple(count + 1, first, turns.step, trip_form(count, &trip)) else {
        return Ok(None);
    };
    let counter = counter_name(alloc, turns.number)?;
    Ok(Some(NormalLoop {
        variable: turns.var,
        counter,
        step: turns.step,
        first,
        below,
        value,
        trip,
        end,
    }))
}

#[tactic(auto, unfolding(crate::specs::normal_forms::NormalLoops::forms_by_first))]
fn forms_by_first(
    alloc: Global,
    symbols: &Seq<Name>,
    round: &[NormalLoop],
    turns: &Loop,
    first: Affine,
    below: Affine,
) -> Result<Option<NormalLoop>, Memory>
    requires deep { length round.now < 7 }
    requires symbols { length symbols.now ≤ 1000 }
    requires small { IsTrue (is_small turns.now.step) }
    requires other { ¬ (turns.now.step ≡ pos 0) }
    ensures exact { IfOk result (λ normal. normal
        ≡ forms_by_first symbols.now round.now (loop_of turns.now) first below) }
    ensures divisor { IfOk result (λ normal. IfSome normal (λ r. pos 0 <ℤ r.trip.by)) }
{
    let count = symbols.len() as u16;
    let Some(value) = plus_multiple(count, below, turns.step, loop_form(round.len())) else {
        return Ok(None);
    };
    let less = [Multiple {
        times: -1,
        form: below,
    }];
    let Some(top) = bound_form(alloc, symbols, round, &turns.last, &less)? else {
        return Ok(None);
    };
    forms_by_trip(alloc, symbols, turns, first, below, value, top)
}

#[tactic(auto, unfolding(crate::specs::normal_forms::NormalLoops::forms_of))]
fn forms_of(
    alloc: Global,
    symbols: &Seq<Name>,
    round: &[NormalLoop],
    turns: &Loop,
) -> Result<Option<NormalLoop>, Memory>
    requires deep { length round.now < 7 }
    requires symbols { length symbols.now ≤ 1000 }
    requires small { IsTrue (is_small turns.now.step) }
    requires other { ¬ (turns.now.step ≡ pos 0) }
    ensures exact { IfOk result (λ normal. normal ≡ forms_of symbols.now round.now (loop_of turns.now)) }
    ensures divisor { IfOk result (λ normal. IfSome normal (λ r. pos 0 <ℤ r.trip.by)) }
{
    let count = symbols.len() as u16;
    let Some(first) = bound_form(alloc, symbols, round, &turns.first, &[])? else {
        return Ok(None);
    };
    let Some(below) = plus_number(count, first, negated(turns.step)) else {
        return Ok(None);
    };
    forms_by_first(alloc, symbols, round, turns, first, below)
}

/// The loop under these loops, where it and its forms are within the limits.
#[tactic(auto, unfolding(crate::specs::normal_forms::NormalLoops::normal_loop))]
pub fn normal_loop(
    alloc: Global,
    symbols: &Seq<Name>,
    round: &[NormalLoop],
    turns: &Loop,
) -> Result<Option<NormalLoop>, Memory>
    requires symbols { length symbols.now ≤ 1000 }
    ensures exact { IfOk result (λ normal. normal ≡ normal_loop symbols.now round.now (loop_of turns.now)) }
    ensures deep { IfOk result (λ normal. OnSome normal (length round.now < 7)) }
    ensures divisor { IfOk result (λ normal. IfSome normal (λ r. pos 0 <ℤ r.trip.by)) }
{
    if !is_suitable(turns.step, round) {
        return Ok(None);
    }
    forms_of(alloc, symbols, round, turns)
}
