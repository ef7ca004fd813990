//! Last values in place.
ghost use Rattle.std.specs.Prelude.{◌≡◌, ◌++◌, ◌∷◌, [], map, IfOk, OnErr, OnOk};
ghost use Rattle.tree.specs.View.{expression_of};
ghost use Rattle.nest.specs.View.{part_of};
ghost use Rattle.last_values.specs.normal_forms.Texts.{at_least_one};
ghost use Rattle.last_values.specs.InPlace.{first_text, own_trip_text, end_text, assigned_part};
ghost use Rattle.last_values.specs.PartsInPlace.{only_where_part, parts_before, parts_behind};
ghost use Rattle.last_values.specs.InPlace.{end_part};

use crate::endings::scalar;
use crate::normal_forms::{
    NormalLoop, at_least_one, counters_of, is_known, is_positive, trip_text,
};
use linear_forms::express;
use nest::{GuardedStmt, NestArm, Part};
use std::alloc::Global;
use tree::{Expr, Memory, Name, Seq};

fn first_text(
    alloc: Global,
    symbols: &Seq<Name>,
    round: &[NormalLoop],
    turns: &NormalLoop,
) -> Result<Expr, Memory>
    ensures { IfOk result (λ e. expression_of e ≡ first_text symbols.now round.now turns.now) }
{
    let counters = counters_of(alloc, round)?;
    express(alloc, &turns.first, counters.as_slice(), symbols, &[])
}

fn own_trip_text(
    alloc: Global,
    symbols: &Seq<Name>,
    round: &[NormalLoop],
    turns: &NormalLoop,
) -> Result<Expr, Memory>
    ensures { IfOk result (λ e. expression_of e ≡ own_trip_text symbols.now round.now turns.now) }
{
    let counters = counters_of(alloc, round)?;
    trip_text(alloc, counters.as_slice(), symbols, &[], &turns.trip)
}

fn end_text(
    alloc: Global,
    symbols: &Seq<Name>,
    round: &[NormalLoop],
    turns: &NormalLoop,
) -> Result<Expr, Memory>
    ensures { IfOk result (λ e. expression_of e ≡ end_text symbols.now round.now turns.now) }
{
    let counters = counters_of(alloc, round)?;
    let mut trips = Vec::new(alloc);
    trips.push(own_trip_text(alloc, symbols, round, turns)?)?;
    express(
        alloc,
        &turns.end,
        counters.as_slice(),
        symbols,
        trips.as_slice(),
    )
}

#[tactic(auto, using(nest::proofs::Equations::part_equations))]
fn assigned_part(alloc: Global, line: u32, variable: Name, value: Expr) -> Part
    ensures { part_of result ≡ assigned_part line variable (expression_of value) }
{
    Part::Run(GuardedStmt {
        line,
        guard: None,
        left: scalar(alloc, variable),
        right: value,
    })
}

// An IF without an ELSE part.
#[tactic(auto, using(nest::proofs::Equations::part_equations))]
fn only_where_part(alloc: Global, test: Expr, body: Seq<Part>) -> Result<Part, Memory>
    ensures { IfOk result (λ part. part_of part ≡ only_where_part (expression_of test) (map part_of body)) }
{
    let mut arms = Seq::new(alloc);
    arms.push(NestArm { test, body })?;
    Ok(Part::Choice(arms, Seq::new(alloc)))
}

fn end_part(
    alloc: Global,
    symbols: &Seq<Name>,
    line: u32,
    round: &[NormalLoop],
    turns: &NormalLoop,
) -> Result<Part, Memory>
    ensures { IfOk result (λ part. part_of part ≡ end_part symbols.now line round.now turns.now) }
{
    let end = end_text(alloc, symbols, round, turns)?;
    Ok(assigned_part(alloc, line, turns.variable, end))
}

/// Adds what stands before a loop for its variable's last value in place. The loops round it stand from the outside
/// in; the line is that of the statements.
#[tactic(auto, unfolding(crate::specs::PartsInPlace::parts_before))]
pub fn add_parts_before(
    alloc: Global,
    symbols: &Seq<Name>,
    line: u32,
    round: &[NormalLoop],
    turns: &NormalLoop,
    parts: &mut Seq<Part>,
) -> Result<(), Memory>
    ensures ok { OnOk result (map part_of parts.new
        ≡ map part_of parts.old ++ parts_before symbols.now line round.now turns.now) }
    ensures err { OnErr result (parts.new ≡ parts.old) }
{
    if is_positive(&turns.trip) {
        return Ok(());
    }
    let first = first_text(alloc, symbols, round, turns)?;
    parts.push(assigned_part(alloc, line, turns.variable, first))
}

fn end_if_entered(
    alloc: Global,
    symbols: &Seq<Name>,
    line: u32,
    round: &[NormalLoop],
    turns: &NormalLoop,
) -> Result<Part, Memory>
    ensures { IfOk result (λ part. part_of part
        ≡ only_where_part (at_least_one (own_trip_text symbols.now round.now turns.now))
        (end_part symbols.now line round.now turns.now ∷ [])) }
{
    let test = at_least_one(alloc, own_trip_text(alloc, symbols, round, turns)?)?;
    let mut body = Seq::new(alloc);
    body.push(end_part(alloc, symbols, line, round, turns)?)?;
    only_where_part(alloc, test, body)
}

/// Adds what stands behind a loop for its variable's last value in place.
#[tactic(auto, unfolding(crate::specs::PartsInPlace::parts_behind))]
pub fn add_parts_behind(
    alloc: Global,
    symbols: &Seq<Name>,
    line: u32,
    round: &[NormalLoop],
    turns: &NormalLoop,
    parts: &mut Seq<Part>,
) -> Result<(), Memory>
    ensures ok { OnOk result (map part_of parts.new
        ≡ map part_of parts.old ++ parts_behind symbols.now line round.now turns.now) }
    ensures err { OnErr result (parts.new ≡ parts.old) }
{
    if is_positive(&turns.trip) {
        return parts.push(end_part(alloc, symbols, line, round, turns)?);
    }
    if is_known(&turns.trip) {
        return Ok(());
    }
    parts.push(end_if_entered(alloc, symbols, line, round, turns)?)
}
