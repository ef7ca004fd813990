//! The cut points of a nest.
ghost use Rattle.std.specs.Prelude.{◌≡◌, ◌↔◌, ◌≤◌, ℕ, pos, IfOk, MatchOption, None, Some, map};
ghost use Rattle.std.specs.List.Sorted.{IsStrictlyIncreasing};
ghost use Rattle.components.specs.Lists.{IsMember};
ghost use Rattle.dependence_graph.specs.nest_graph.Ready.{IsReady};
ghost use Rattle.nest.specs.Plain.{parts};
ghost use Rattle.nest.specs.View.{loop_of, nest_of, part_of};
ghost use Rattle.index_split.specs.Cuts.{are_statements, is_statement, only_loop};
ghost use Rattle.index_split.specs.Points.{AreCutPoints, IsConsidered, IsPointAmong, TurnsAlways};

use crate::points::Points;
use dependence_graph::loop_spans::span_after;
use dependence_graph::nest_references::{Occurrence, occurrences_of};
use nest::{Loop, Nest, Part};
use std::alloc::Global;
use tree::{Memory, Seq};

#[tactic(auto, using(nest::proofs::Equations::part_equations))]
fn is_statement(part: &Part) -> bool
    ensures { result ≡ is_statement (part_of part.now) }
{
    match part {
        Part::Run(_) => true,
        Part::Turns(..) => false,
        Part::Choice(..) => false,
        Part::Label(_) => false,
        Part::Jump(_) => false,
    }
}

fn are_statements(list: &[Part]) -> bool
    ensures { result ≡ are_statements (parts (map part_of list.now)) }
{
    let Some((part, rest)) = list.split_first() else {
        return true;
    };
    is_statement(part) && are_statements(rest)
}

// How often a loop from 1 by 1 turns, where that is a constant.
fn constant_trip(turns: &Loop) -> Option<i64>
    ensures { MatchOption result ((t : ℕ) → TurnsAlways (loop_of turns.now) t → ⊥)
        (λ z. (t : ℕ) → (z ≡ pos t) ↔ TurnsAlways (loop_of turns.now) t) }
{
    let Some(trip) = turns.trip else {
        return None;
    };
    if trip.by < 1 || !trip.top.is_form(0) {
        return None;
    }
    let span = span_after(&[], &trip);
    if span.fixed { span.last } else { None }
}

#[tactic(auto, using(nest::proofs::Equations::part_equations))]
fn only_loop(nest: &Nest) -> Option<&Loop>
    ensures { MatchOption result (only_loop (nest_of nest.now).body ≡ None)
        (λ l. only_loop (nest_of nest.now).body ≡ Some (loop_of l.now)) }
{
    match &nest.body {
        Part::Turns(turns, body) => {
            if are_statements(body.as_slice()) {
                Some(turns)
            } else {
                None
            }
        }
        Part::Run(_) => None,
        Part::Choice(..) => None,
        Part::Label(_) => None,
        Part::Jump(_) => None,
    }
}

// A trip from 2 to 2147483646.
fn within(trip: i64) -> Option<u32>
    ensures { MatchOption result ((t : ℕ) → trip ≡ pos t → 2 ≤ t → t ≤ 2147483646 → ⊥)
        (λ t. (trip ≡ pos t) × (2 ≤ t) × (t ≤ 2147483646)) }
{
    if trip < 2 || trip > 2_147_483_646 {
        return None;
    }
    Some(trip as u32)
}

/// How often the loop of a nest turns, where the nest is considered: one loop round assignments alone, with a constant
/// trip from 2 to 2147483646.
pub fn trip_to_cut(nest: &Nest) -> Option<u32>
    ensures { MatchOption result ((t : ℕ) → IsConsidered (nest_of nest.now) t → ⊥)
        (λ t. IsConsidered (nest_of nest.now) t) }
{
    match only_loop(nest) {
        None => None,
        Some(turns) => match constant_trip(turns) {
            None => None,
            Some(trip) => within(trip),
        },
    }
}

// The numbers in rising order, each once.
fn in_order(numbers: Vec<u32>) -> Vec<u32>
    ensures rising { IsStrictlyIncreasing result.items }
    ensures same { (x : ℕ) → IsMember x result.items ↔ IsMember x numbers.items }
{
    let mut numbers = numbers;
    numbers.sort_unstable();
    numbers.dedup();
    numbers
}

// The points that references give, each with each one.
fn points_among(alloc: Global, all: &[Occurrence], trip: u32) -> Result<Seq<u32>, Memory>
    requires { trip ≤ 2147483646 }
    ensures rising { IfOk result (λ points. IsStrictlyIncreasing points) }
    ensures points { IfOk result (λ points. (x : ℕ) → IsMember x points ↔ IsPointAmong all.now all.now trip x) }
{
    let mut points = Points {
        trip,
        list: Seq::new(alloc),
    };
    points.add_table(alloc, all)?;
    Ok(Seq::from_vec(in_order(points.list.into_vec())))
}

/// The points at which the loop of a nest is cut, in rising order, where the loops of the nest go from 1 by 1. There
/// are none where the nest isn't considered.
pub fn cut_points(alloc: Global, nest: &Nest) -> Result<Seq<u32>, Memory>
    requires { IsReady (nest_of nest.now) }
    ensures { IfOk result (AreCutPoints (nest_of nest.now)) }
{
    let all = occurrences_of(alloc, nest)?;
    match trip_to_cut(nest) {
        None => Ok(Seq::new(alloc)),
        Some(trip) => points_among(alloc, all.as_slice(), trip),
    }
}
