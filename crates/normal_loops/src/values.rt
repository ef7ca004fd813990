//! Statements and conditions, in which the variables of loops become linear forms of the counters.
ghost use Rattle.std.specs.Prelude.{◌≡◌, ◌≤◌, ◌^◌, [], length, IfOk};
ghost use Rattle.tree.specs.View.{expression_of};
ghost use Rattle.rewrite.specs.Making.{made};
ghost use Rattle.rewrite.specs.Replacing.{replacing};
ghost use Rattle.nest.specs.View.{guarded_of};
ghost use Rattle.nest_rewrite.specs.Statements.{rewritten_statement};
ghost use Rattle.last_values.specs.normal_forms.NormalLoops.{counters_of};
ghost use Rattle.form_rules.specs.Replacement.{replacing_of};
ghost use Rattle.normal_loops.specs.Values.{with_value, in_text, statement_with_values};
ghost use Rattle.normal_loops.specs.Tests.{test_with_values, normal_test};
ghost use Rattle.normal_loops.specs.Values.{normal_statement};

use form_rules::{Canonical, Replacement};
use last_values::normal_forms::{NormalLoop, counters_of, value_text};
use nest::GuardedStmt;
use nest_rewrite::{rewrite_stmt, rewrite_test};
use std::alloc::Global;
use tree::{Expr, Memory, Name, Seq};

// The rule that puts the value of a loop's variable in its place.
fn value_rule(
    alloc: Global,
    symbols: &Seq<Name>,
    outer: &[NormalLoop],
    turns: &NormalLoop,
) -> Result<Replacement, Memory>
    ensures { IfOk result (λ rule. replacing (replacing_of rule) ≡ with_value symbols.now outer.now turns.now) }
{
    Ok(Replacement {
        variable: turns.variable,
        by: value_text(alloc, symbols, outer, turns)?,
        new: turns.counter,
        fixed: Seq::new(alloc),
    })
}

// The rule that brings what has counters of these loops into canonical text.
fn text_rule(alloc: Global, symbols: &Seq<Name>, round: &[NormalLoop]) -> Result<Canonical, Memory>
    requires { length symbols.now ≤ 1000 }
    ensures loops { IfOk result (λ rule. rule.loops ≡ counters_of round.now) }
    ensures symbols { IfOk result (λ rule. rule.symbols ≡ symbols.now) }
{
    let loops = Seq::from_vec(counters_of(alloc, round)?);
    let symbols = Seq::from_vec(Vec::from_slice(alloc, symbols.as_slice())?);
    Ok(Canonical { loops, symbols })
}

fn stmt_with_value(
    alloc: Global,
    symbols: &Seq<Name>,
    outer: &[NormalLoop],
    turns: &NormalLoop,
    stmt: &GuardedStmt,
) -> Result<GuardedStmt, Memory>
    ensures { IfOk result (λ new. guarded_of new
        ≡ rewritten_statement (with_value symbols.now outer.now turns.now) (guarded_of stmt.now)) }
{
    let mut rule = value_rule(alloc, symbols, outer, turns)?;
    rewrite_stmt(alloc, stmt, &mut rule)
}

fn stmt_with_values(
    alloc: Global,
    symbols: &Seq<Name>,
    outer: &mut Vec<NormalLoop>,
    inner: &[NormalLoop],
    stmt: GuardedStmt,
) -> Result<GuardedStmt, Memory>
    ensures { IfOk result (λ new. guarded_of new
        ≡ statement_with_values symbols.now outer.old.items inner.now (guarded_of stmt)) }
{
    let Some((turns, rest)) = inner.split_first() else {
        return Ok(stmt);
    };
    let stmt = stmt_with_value(alloc, symbols, outer.as_slice(), turns, &stmt)?;
    outer.push(*turns)?;
    stmt_with_values(alloc, symbols, outer, rest, stmt)
}

/// A statement in these loops, in which their variables have become linear forms of the counters.
#[tactic(auto, unfolding(crate::specs::Values::normal_statement))]
pub(crate) fn normal_stmt(
    alloc: Global,
    symbols: &Seq<Name>,
    round: &[NormalLoop],
    stmt: &GuardedStmt,
) -> Result<GuardedStmt, Memory>
    requires { length symbols.now ≤ 1000 }
    ensures { IfOk result (λ new. guarded_of new ≡ normal_statement symbols.now round.now (guarded_of stmt.now)) }
{
    let mut outer = Vec::new(alloc);
    let stmt = stmt_with_values(alloc, symbols, &mut outer, round, stmt.copy(alloc)?)?;
    let mut rule = text_rule(alloc, symbols, round)?;
    rewrite_stmt(alloc, &stmt, &mut rule)
}

fn test_with_value(
    alloc: Global,
    symbols: &Seq<Name>,
    outer: &[NormalLoop],
    turns: &NormalLoop,
    test: &Expr,
) -> Result<Expr, Memory>
    ensures { IfOk result (λ new. expression_of new
        ≡ made (with_value symbols.now outer.now turns.now) (expression_of test.now)) }
{
    let mut rule = value_rule(alloc, symbols, outer, turns)?;
    rewrite_test(alloc, test, &mut rule)
}

fn test_with_values(
    alloc: Global,
    symbols: &Seq<Name>,
    outer: &mut Vec<NormalLoop>,
    inner: &[NormalLoop],
    test: Expr,
) -> Result<Expr, Memory>
    ensures { IfOk result (λ new. expression_of new
        ≡ test_with_values symbols.now outer.old.items inner.now (expression_of test)) }
{
    let Some((turns, rest)) = inner.split_first() else {
        return Ok(test);
    };
    let test = test_with_value(alloc, symbols, outer.as_slice(), turns, &test)?;
    outer.push(*turns)?;
    test_with_values(alloc, symbols, outer, rest, test)
}

/// A condition of an IF in these loops.
#[tactic(auto, unfolding(crate::specs::Tests::normal_test))]
pub(crate) fn normal_test(
    alloc: Global,
    symbols: &Seq<Name>,
    round: &[NormalLoop],
    test: &Expr,
) -> Result<Expr, Memory>
    requires { length symbols.now ≤ 1000 }
    ensures { IfOk result (λ new. expression_of new ≡ normal_test symbols.now round.now (expression_of test.now)) }
{
    let mut outer = Vec::new(alloc);
    let test = test_with_values(alloc, symbols, &mut outer, round, test.copy(alloc)?)?;
    let mut rule = text_rule(alloc, symbols, round)?;
    rewrite_test(alloc, &test, &mut rule)
}
