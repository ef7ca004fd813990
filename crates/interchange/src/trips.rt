//! Trips of loops that may be moved.
ghost use Rattle.std.specs.Prelude.{◌≡◌, map, slice_get, IfOk};
ghost use Rattle.std.specs.List.{list_all};
ghost use Rattle.nest.specs.View.{loop_of};
ghost use Rattle.interchange.specs.Arranged.{is_loop_free, free_trips_of, if_loop_free};
ghost use Rattle.interchange.specs.Orders.{has_constant, has_turn, is_count, same_terms, same_trip};

use nest::{Loop, Trip};
use std::alloc::Global;
use subscripts::Span;
use tree::{Memory, Seq};

// The most turns that are counted.
const MOST_TURNS: i64 = 2147483646;

fn is_count(count: i64) -> bool
    ensures { result ≡ is_count count }
{
    count <= MOST_TURNS
}

fn has_turn(count: i64) -> bool
    ensures { result ≡ has_turn count }
{
    count >= 1
}

/// Whether the trip is a constant that can be counted.
pub(crate) fn is_countable(span: Option<Span>) -> bool
    ensures { result ≡ has_constant is_count span }
{
    let Some(span) = span else {
        return false;
    };
    match span.last {
        Some(last) => is_count(last) && span.fixed,
        None => false,
    }
}

// Whether the trip is a constant of at least one turn.
fn turns(span: Option<Span>) -> bool
    ensures { result ≡ has_constant has_turn span }
{
    let Some(span) = span else {
        return false;
    };
    match span.last {
        Some(last) => has_turn(last) && span.fixed,
        None => false,
    }
}

// The same of the loop of a place.
fn turns_at(spans: &[Span], place: usize) -> bool
    ensures { result ≡ has_constant has_turn (slice_get spans.now place) }
{
    turns(spans.get(place).copied())
}

/// Whether each of the loops of these places has a turn.
pub(crate) fn all_turn(spans: &[Span], places: &[usize]) -> bool
    ensures { result ≡ list_all (λ k. has_constant has_turn (slice_get spans.now k)) places.now }
{
    places.iter().all(|place| turns_at(spans, *place))
}

fn same_terms(one: &[(u16, i64)], other: &[(u16, i64)]) -> bool
    ensures { result ≡ same_terms one.now other.now }
{
    let Some((first, rest)) = one.split_first() else {
        return other.is_empty();
    };
    let Some((second, others)) = other.split_first() else {
        return false;
    };
    first.0 == second.0 && first.1 == second.1 && same_terms(rest, others)
}

/// Whether two trips without variables of loops are one.
pub(crate) fn same_trip(one: Option<Trip>, other: Option<Trip>) -> bool
    ensures { result ≡ same_trip one other }
{
    let Some(one) = one else {
        return false;
    };
    let Some(other) = other else {
        return false;
    };
    same_terms(&one.top.syms, &other.top.syms)
        && one.top.constant == other.top.constant
        && one.by == other.by
}

// Whether no loop's variable stands in a trip.
fn has_no_loop(trip: &Trip) -> bool
    ensures { result ≡ is_loop_free trip.now }
{
    trip.top.loops.iter().all(|number| *number == 0)
}

fn without_loops(trip: Option<Trip>) -> Option<Trip>
    ensures { result ≡ if_loop_free trip }
{
    let Some(trip) = trip else {
        return None;
    };
    if !has_no_loop(&trip) {
        return None;
    }
    Some(trip)
}

/// The trips of loops, where in each there is no variable of a loop.
#[tactic(auto, using(crate::proofs::ListLaws::list_laws))]
pub(crate) fn trips_of(alloc: Global, loops: &[Loop]) -> Result<Option<Seq<Trip>>, Memory>
    ensures { IfOk result (λ trips. trips ≡ free_trips_of (map loop_of loops.now)) }
{
    let mut trips = Seq::new(alloc);
    for turns in loops {
        let Some(trip) = without_loops(turns.trip) else {
            return Ok(None);
        };
        trips.push(trip)?;
    }
    Ok(Some(trips))
}
