//! Texts of normal loops.
ghost use Rattle.std.specs.Prelude.{◌≡◌, ◌≤◌, ◌<◌, length, map, IfOk, pos};
ghost use Rattle.tree.specs.Plain.{Binary, Number};
ghost use Rattle.tree.specs.View.{expression_of};
ghost use Rattle.last_values.specs.normal_forms.NormalLoops.{counters_of};
ghost use Rattle.last_values.specs.normal_forms.Texts.{quotient_text, trip_text, counter_first, variable_text};
ghost use Rattle.last_values.specs.normal_forms.Texts.{at_least_one};

use crate::normal_forms::loops::NormalLoop;
use linear_forms::express;
use nest::Trip;
use std::alloc::Global;
use subscripts::Affine;
use tree::{Expr, Memory, Name, Op, Seq, both};

/// The counters of loops.
pub fn counters_of(alloc: Global, round: &[NormalLoop]) -> Result<Vec<Name>, Memory>
    ensures { IfOk result (λ names. names.items ≡ counters_of round.now) }
{
    let mut names = Vec::new(alloc);
    for turns in round {
        names.push(turns.counter)?;
    }
    Ok(names)
}

#[tactic(auto, using(tree::proofs::Equations::expression_equations))]
fn with_number(alloc: Global, op: Op, expr: Expr, number: i64) -> Result<Expr, Memory>
    ensures { IfOk result (λ e. expression_of e ≡ Binary op (expression_of expr) (Number number)) }
{
    let number = Expr::Int(i128::from(number));
    let (expr, number) = both(Box::new(alloc, expr), Box::new(alloc, number))?;
    Ok(Expr::Bin(op, expr, number))
}

fn quotient(alloc: Global, expr: Expr, by: i64) -> Result<Expr, Memory>
    ensures { IfOk result (λ e. expression_of e ≡ quotient_text (expression_of expr) by) }
{
    if by == 1 {
        return Ok(expr);
    }
    with_number(alloc, Op::Div, expr, by)
}

/// The text of a trip over these loops and symbols, and further divided trips.
#[tactic(auto, unfolding(crate::specs::normal_forms::Texts::trip_text))]
pub fn trip_text(
    alloc: Global,
    counters: &[Name],
    symbols: &Seq<Name>,
    trips: &[Expr],
    trip: &Trip,
) -> Result<Expr, Memory>
    ensures { IfOk result (λ e. expression_of e
        ≡ trip_text counters.now symbols.now (map expression_of trips.now) trip.now) }
{
    let text = express(alloc, &trip.top, counters, symbols, trips)?;
    quotient(alloc, text, trip.by)
}

// The increment's multiple of a loop's own counter before the counters of the loops round it.
fn counter_first(step: i64, form: &Affine) -> Affine
    ensures { result ≡ counter_first step form.now }
{
    let round = form.loops;
    let loops = [
        step, round[0], round[1], round[2], round[3], round[4], round[5],
    ];
    let syms = form.syms;
    Affine {
        loops,
        syms,
        constant: form.constant,
    }
}

/// The increment times the counter, and the lower bound less the increment: what stands for the variable of a loop
/// under these loops.
#[tactic(auto, unfolding(crate::specs::normal_forms::Texts::variable_text))]
pub fn value_text(
    alloc: Global,
    symbols: &Seq<Name>,
    round: &[NormalLoop],
    turns: &NormalLoop,
) -> Result<Expr, Memory>
    ensures { IfOk result (λ e. expression_of e ≡ variable_text symbols.now round.now turns.now) }
{
    let mut counters = Vec::from_slice(alloc, &[turns.counter])?;
    counters.extend_from_slice(counters_of(alloc, round)?.as_slice())?;
    let form = counter_first(turns.step, &turns.below);
    express(alloc, &form, counters.as_slice(), symbols, &[])
}

/// That a trip is at least 1.
pub fn at_least_one(alloc: Global, trip: Expr) -> Result<Expr, Memory>
    ensures { IfOk result (λ e. expression_of e ≡ at_least_one (expression_of trip)) }
{
    with_number(alloc, Op::Ge, trip, 1)
}
