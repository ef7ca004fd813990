//! Last values behind all loops.
ghost use Rattle.std.specs.Prelude.{◌≡◌, ◌≤◌, [], ◌∷◌, pos, ◌<ℤ◌, length, map, IfOk};
ghost use Rattle.std.specs.Option.{option_map};
ghost use Rattle.tree.specs.Plain.{Binary};
ghost use Rattle.tree.specs.declared.ops.Op.TheVariants.{And};
ghost use Rattle.tree.specs.View.{expression_of, reference_of, statement_of, block_of};
ghost use Rattle.last_values.specs.normal_forms.Texts.{at_least_one};
ghost use Rattle.last_values.specs.Endings.{assigned, only_where, all_hold, where_all_hold, loop_ending};
ghost use Rattle.last_values.specs.Scalars.{scalar};
ghost use Rattle.last_values.specs.View.{texts_of, after_block};
ghost use Rattle.last_values.specs.Endings.{ending_behind, after_statements};

use crate::normal_forms::{
    LastForms, LastTexts, NormalLoop, at_least_one, have_plain_trips, is_known, is_positive,
    last_forms, last_texts, tests_of,
};
use nest::Trip;
use std::alloc::Global;
use tree::{Arm, Block, Expr, Memory, Name, Op, Ref, Seq, Stmt, both};

#[tactic(auto, using(tree::proofs::Equations::expression_equations))]
pub(crate) fn scalar(alloc: Global, variable: Name) -> Ref
    ensures { reference_of result ≡ scalar variable }
{
    Ref {
        name: variable,
        subs: Seq::new(alloc),
    }
}

#[tactic(auto, using(tree::proofs::Equations::statement_equations))]
fn assigned(alloc: Global, line: u32, variable: Name, value: Expr) -> Stmt
    ensures { statement_of result ≡ assigned line variable (expression_of value) }
{
    Stmt::Assign {
        line,
        mark: None,
        left: scalar(alloc, variable),
        right: value,
    }
}

// A block IF without an ELSE part.
#[tactic(auto, using(tree::proofs::Equations::statement_equations))]
fn only_where(alloc: Global, line: u32, test: Expr, stmts: Seq<Stmt>) -> Result<Stmt, Memory>
    ensures { IfOk result (λ stmt. statement_of stmt
        ≡ only_where line (expression_of test) (map statement_of stmts)) }
{
    let mut arms = Seq::new(alloc);
    let body = Block { stmts };
    arms.push(Arm { test, body })?;
    let other = Block {
        stmts: Seq::new(alloc),
    };
    Ok(Stmt::If { line, arms, other })
}

#[tactic(auto, using(tree::proofs::Equations::expression_equations))]
fn conjunction(alloc: Global, left: Expr, right: Expr) -> Result<Expr, Memory>
    ensures { IfOk result (λ e. expression_of e ≡ Binary And (expression_of left) (expression_of right)) }
{
    let (left, right) = both(Box::new(alloc, left), Box::new(alloc, right))?;
    Ok(Expr::Bin(Op::And, left, right))
}

// A condition and further ones, joined from the left.
fn all_hold(alloc: Global, first: Expr, rest: &[Expr]) -> Result<Expr, Memory>
    ensures { IfOk result (λ e. expression_of e ≡ all_hold (expression_of first) (map expression_of rest.now)) }
{
    let Some((next, rest)) = rest.split_first() else {
        return Ok(first);
    };
    let next = next.copy(alloc)?;
    all_hold(alloc, conjunction(alloc, first, next)?, rest)
}

// In one block IF on these conditions, and in none where there are none.
fn where_all_hold(
    alloc: Global,
    line: u32,
    tests: &[Expr],
    stmts: Seq<Stmt>,
) -> Result<Seq<Stmt>, Memory>
    ensures { IfOk result (λ all. map statement_of all
        ≡ where_all_hold line (map expression_of tests.now) (map statement_of stmts)) }
{
    let Some((first, rest)) = tests.split_first() else {
        return Ok(stmts);
    };
    let test = all_hold(alloc, first.copy(alloc)?, rest)?;
    let mut all = Seq::new(alloc);
    all.push(only_where(alloc, line, test, stmts)?)?;
    Ok(all)
}

// The last value of a loop that may have no turn, where it has one.
fn end_if_entered(
    alloc: Global,
    line: u32,
    variable: Name,
    trip: Expr,
    end: Expr,
) -> Result<Stmt, Memory>
    ensures { IfOk result (λ stmt. statement_of stmt
        ≡ only_where line (at_least_one (expression_of trip)) (assigned line variable (expression_of end) ∷ [])) }
{
    let test = at_least_one(alloc, trip)?;
    let mut stmts = Seq::new(alloc);
    stmts.push(assigned(alloc, line, variable, end))?;
    only_where(alloc, line, test, stmts)
}

// The last value of the variable of a loop with this trip.
fn ending(
    alloc: Global,
    line: u32,
    variable: Name,
    trip: &Trip,
    texts: LastTexts,
) -> Result<Seq<Stmt>, Memory>
    ensures { IfOk result (λ stmts. map statement_of stmts ≡ loop_ending line variable trip.now (texts_of texts)) }
{
    let LastTexts {
        first,
        trip: count,
        end,
    } = texts;
    let mut stmts = Seq::new(alloc);
    if is_positive(trip) {
        stmts.push(assigned(alloc, line, variable, end))?;
        return Ok(stmts);
    }
    stmts.push(assigned(alloc, line, variable, first))?;
    if !is_known(trip) {
        stmts.push(end_if_entered(alloc, line, variable, count, end)?)?;
    }
    Ok(stmts)
}

fn ending_behind(
    alloc: Global,
    symbols: &Seq<Name>,
    line: u32,
    round: &[NormalLoop],
    turns: &NormalLoop,
    forms: &LastForms,
) -> Result<Seq<Stmt>, Memory>
    ensures { IfOk result (λ stmts. map statement_of stmts
        ≡ ending_behind symbols.now line round.now turns.now forms.now) }
{
    let texts = last_texts(alloc, symbols, round, forms)?;
    let stmts = ending(alloc, line, turns.variable, &forms.trip, texts)?;
    let tests = tests_of(alloc, symbols, round)?;
    where_all_hold(alloc, line, tests.as_slice(), stmts)
}

/// The last value of the variable of a loop behind all loops, where the loop's last turn is known and its forms are
/// within the limits.
#[tactic(auto, unfolding(crate::specs::Endings::after_statements))]
pub(crate) fn after_statements(
    alloc: Global,
    symbols: &Seq<Name>,
    line: u32,
    round: &[NormalLoop],
    turns: &NormalLoop,
) -> Result<Option<Seq<Stmt>>, Memory>
    requires deep { length round.now ≤ 6 }
    requires symbols { length symbols.now ≤ 1000 }
    requires divisor { pos 0 <ℤ turns.now.trip.by }
    ensures { IfOk result (λ made. option_map (map statement_of) made
        ≡ after_statements symbols.now line round.now turns.now) }
{
    if !have_plain_trips(round) {
        return Ok(None);
    }
    let Some(forms) = last_forms(alloc, symbols.len() as u16, round, turns)? else {
        return Ok(None);
    };
    Ok(Some(ending_behind(alloc, symbols, line, round, turns, &forms)?))
}

/// The last value of the variable of a loop behind all loops, where the loop's last turn is known and its forms are
/// within the limits. The loops round it stand from the outside in; the line is that of the statements.
#[tactic(auto, using(tree::proofs::Equations::statement_equations))]
pub fn after_block(
    alloc: Global,
    symbols: &Seq<Name>,
    line: u32,
    round: &[NormalLoop],
    turns: &NormalLoop,
) -> Result<Option<Block>, Memory>
    requires deep { length round.now ≤ 6 }
    requires symbols { length symbols.now ≤ 1000 }
    requires divisor { pos 0 <ℤ turns.now.trip.by }
    ensures { IfOk result (λ made. option_map block_of made ≡ after_block symbols.now line round.now turns.now) }
{
    match after_statements(alloc, symbols, line, round, turns)? {
        Some(stmts) => Ok(Some(Block { stmts })),
        None => Ok(None),
    }
}
