//! Last values after all loops.
ghost use Rattle.std.specs.Prelude.{◌≡◌, ◌≤◌, ◌<◌, ◌+◌, ◌++◌, ◌^◌, length, map, pos, IfOk, OnOk, ◌<ℤ◌};
ghost use Rattle.std.specs.List.{list_all};
ghost use Rattle.tree.specs.View.{expression_of};
ghost use Rattle.last_values.specs.normal_forms.Combinations.{combination};
ghost use Rattle.last_values.specs.normal_forms.LastValues.{trips_from, with_trips, last_forms, has_plain_trip};
ghost use Rattle.last_values.specs.normal_forms.LastValues.{have_plain_trips};
ghost use Rattle.last_values.specs.normal_forms.LastTexts.{plain_trip_text, plain_trip_texts, last_trip_text};
ghost use Rattle.last_values.specs.normal_forms.LastTexts.{last_first_text};
ghost use Rattle.last_values.specs.normal_forms.LastTexts.{last_end_text, is_uncertain, test_of, tests_of};

use crate::normal_forms::combinations::{Multiple, combination};
use crate::normal_forms::loops::{
    NormalLoop, has_no_loops, is_positive, plus_multiple, trip_form, trip_of, without_loops,
};
use crate::normal_forms::places::Place;
use crate::normal_forms::texts::{at_least_one, trip_text};
use linear_forms::express;
use nest::Trip;
use std::alloc::Global;
use subscripts::Affine;
use tree::{Expr, Memory, Name, Seq};

/// The forms of a loop in the last turn of each loop round it: of its lower bound, its trip, and its variable's last
/// value. The divided trips of these loops and of the loop itself have the places behind the symbols.
#[derive(Clone, Copy)]
pub struct LastForms {
    pub first: Affine,
    pub trip: Trip,
    pub end: Affine,
}

/// The texts of a loop's lower bound, trip and last value.
#[derive(Drop)]
pub struct LastTexts {
    pub first: Expr,
    pub trip: Expr,
    pub end: Expr,
}

fn add_trips(
    terms: &mut Vec<Multiple>,
    count: u16,
    place: usize,
    form: &Affine,
    round: &[NormalLoop],
) -> Result<(), Memory>
    requires deep { place + length round.now ≤ 7 }
    requires symbols { count ≤ 1000 }
    ensures values { OnOk result (terms.new.items ≡ terms.old.items ++ trips_from count place form.now round.now) }
    ensures count { OnOk result (length terms.new.items ≡ length terms.old.items + length round.now) }
{
    let Some((first, rest)) = round.split_first() else {
        return Ok(());
    };
    let times = Place::Loop(place).of(form);
    let trip = trip_form(count + place as u16, &first.trip);
    terms.push(Multiple { times, form: trip })?;
    add_trips(terms, count, place + 1, form, rest)
}

fn with_trips(
    alloc: Global,
    count: u16,
    round: &[NormalLoop],
    form: &Affine,
) -> Result<Option<Affine>, Memory>
    requires deep { length round.now ≤ 7 }
    requires symbols { count ≤ 1000 }
    ensures { IfOk result (λ made. made ≡ combination (count + 7) (with_trips count round.now form.now)) }
{
    let mut terms = Vec::new(alloc);
    add_trips(&mut terms, count, 0, form, round)?;
    terms.push(Multiple {
        times: 1,
        form: without_loops(form),
    })?;
    Ok(combination(terms.as_slice(), count + 7))
}

/// The forms of a loop in the last turn of each loop round it, where they are within the limits.
#[tactic(auto, unfolding(crate::specs::normal_forms::LastValues::last_forms))]
pub fn last_forms(
    alloc: Global,
    count: u16,
    round: &[NormalLoop],
    turns: &NormalLoop,
) -> Result<Option<LastForms>, Memory>
    requires deep { length round.now ≤ 6 }
    requires symbols { count ≤ 1000 }
    requires divisor { pos 0 <ℤ turns.now.trip.by }
    ensures { IfOk result (λ forms. forms ≡ last_forms count round.now turns.now) }
{
    let Some(first) = with_trips(alloc, count, round, &turns.first)? else {
        return Ok(None);
    };
    let Some(top) = with_trips(alloc, count, round, &turns.trip.top)? else {
        return Ok(None);
    };
    let trip = trip_of(top, turns.trip.by);
    let place = count + round.len() as u16;
    let Some(end) = plus_multiple(count + 7, first, turns.step, trip_form(place, &trip)) else {
        return Ok(None);
    };
    Ok(Some(LastForms { first, trip, end }))
}

fn all_plain(round: &[NormalLoop]) -> bool
    ensures { result ≡ list_all has_plain_trip round.now }
{
    round.iter().all(|turns| has_no_loops(&turns.trip.top))
}

/// Whether the loops in the outermost one have trips without counters.
#[tactic(auto, unfolding(crate::specs::normal_forms::LastValues::have_plain_trips))]
pub fn have_plain_trips(round: &[NormalLoop]) -> bool
    ensures { result ≡ have_plain_trips round.now }
{
    let Some((_, rest)) = round.split_first() else {
        return true;
    };
    all_plain(rest)
}

#[tactic(auto, unfolding(crate::specs::normal_forms::LastTexts::plain_trip_text))]
fn plain_trip_text(alloc: Global, symbols: &Seq<Name>, turns: &NormalLoop) -> Result<Expr, Memory>
    ensures { IfOk result (λ e. expression_of e ≡ plain_trip_text symbols.now turns.now) }
{
    trip_text(alloc, &[], symbols, &[], &turns.trip)
}

fn plain_trip_texts(
    alloc: Global,
    symbols: &Seq<Name>,
    round: &[NormalLoop],
) -> Result<Vec<Expr>, Memory>
    ensures { IfOk result (λ texts. map expression_of texts.items ≡ plain_trip_texts symbols.now round.now) }
{
    let mut texts = Vec::new(alloc);
    for turns in round {
        texts.push(plain_trip_text(alloc, symbols, turns)?)?;
    }
    Ok(texts)
}

/// The texts of the forms.
#[tactic(auto, unfolding(crate::specs::normal_forms::LastTexts::last_end_text))]
pub fn last_texts(
    alloc: Global,
    symbols: &Seq<Name>,
    round: &[NormalLoop],
    forms: &LastForms,
) -> Result<LastTexts, Memory>
    ensures first { IfOk result (λ texts. expression_of texts.first
        ≡ last_first_text symbols.now round.now forms.now) }
    ensures trip { IfOk result (λ texts. expression_of texts.trip ≡ last_trip_text symbols.now round.now forms.now) }
    ensures end { IfOk result (λ texts. expression_of texts.end ≡ last_end_text symbols.now round.now forms.now) }
{
    let mut trips = plain_trip_texts(alloc, symbols, round)?;
    let first = express(alloc, &forms.first, &[], symbols, trips.as_slice())?;
    let trip = trip_text(alloc, &[], symbols, trips.as_slice(), &forms.trip)?;
    trips.push(trip.copy(alloc)?)?;
    let end = express(alloc, &forms.end, &[], symbols, trips.as_slice())?;
    Ok(LastTexts { first, trip, end })
}

fn is_uncertain(turns: &NormalLoop) -> bool
    ensures { result ≡ is_uncertain turns.now }
{
    !is_positive(&turns.trip)
}

// That a loop which may have no turn has one.
fn add_test(
    alloc: Global,
    symbols: &Seq<Name>,
    turns: &NormalLoop,
    tests: &mut Vec<Expr>,
) -> Result<(), Memory>
    ensures { OnOk result (map expression_of tests.new.items
        ≡ map expression_of tests.old.items ++ test_of symbols.now turns.now) }
{
    if !is_uncertain(turns) {
        return Ok(());
    }
    let trip = plain_trip_text(alloc, symbols, turns)?;
    tests.push(at_least_one(alloc, trip)?)?;
    Ok(())
}

fn add_tests(
    alloc: Global,
    symbols: &Seq<Name>,
    round: &[NormalLoop],
    tests: &mut Vec<Expr>,
) -> Result<(), Memory>
    ensures { OnOk result (map expression_of tests.new.items
        ≡ map expression_of tests.old.items ++ tests_of symbols.now round.now) }
{
    let Some((first, rest)) = round.split_first() else {
        return Ok(());
    };
    add_test(alloc, symbols, first, tests)?;
    add_tests(alloc, symbols, rest, tests)
}

/// That those of the loops which may have no turn have one.
pub fn tests_of(
    alloc: Global,
    symbols: &Seq<Name>,
    round: &[NormalLoop],
) -> Result<Vec<Expr>, Memory>
    ensures { IfOk result (λ tests. map expression_of tests.items ≡ tests_of symbols.now round.now) }
{
    let mut tests = Vec::new(alloc);
    add_tests(alloc, symbols, round, &mut tests)?;
    Ok(tests)
}
