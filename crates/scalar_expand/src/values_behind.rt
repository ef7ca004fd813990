//! Last values of private scalars.
ghost use Rattle.std.specs.Prelude.{◌≡◌, ◌++◌, ◌∷◌, [], IfOk, OnOk, map};
ghost use Rattle.std.specs.List.{list_all};
ghost use Rattle.tree.specs.Plain.{Assignment, block};
ghost use Rattle.tree.specs.View.{block_of, expression_of, reference_of, statement_of, subscript_of};
ghost use Rattle.nest.specs.Allocations.{block_then};
ghost use Rattle.last_values.specs.Endings.{all_hold, only_where, where_all_hold};
ghost use Rattle.last_values.specs.Scalars.{scalar};
ghost use Rattle.last_values.specs.normal_forms.NormalLoops.{has_no_loops};
ghost use Rattle.scalar_expand.specs.Expanded.{as_expression, has_known_end, trip_expression, known_trip_at};
ghost use Rattle.scalar_expand.specs.Expanded.{last_assignment, last_element};
ghost use Rattle.scalar_expand.specs.Expanded.{last_value, last_values, trip_test, trip_tests};

use crate::elements::{element_at, only};
use crate::privates::{Private, RoundLoop};
use crate::texts::two;
use last_values::normal_forms::{at_least_one, is_positive, trip_text};
use std::alloc::Global;
use subscripts::Affine;
use tree::{Arm, Block, Expr, Memory, Name, Op, Ref, Seq, Stmt, Sub};

fn has_no_loops(form: &Affine) -> bool
    ensures { result ≡ has_no_loops form.now }
{
    form.loops.iter().all(|number| *number == 0)
}

fn have_no_loops(loops: &[RoundLoop]) -> bool
    ensures { result ≡ list_all (λ (l : RoundLoop). has_no_loops l.trip.top) loops.now }
{
    let Some((first, rest)) = loops.split_first() else {
        return true;
    };
    has_no_loops(&first.trip.top) && have_no_loops(rest)
}

/// Whether the last iteration of its loops is known behind them.
pub(crate) fn has_known_end(private: &Private) -> bool
    ensures { result ≡ has_known_end private.now }
{
    have_no_loops(private.loops.as_slice())
}

// ---- the last element

fn known_trip(alloc: Global, symbols: &Seq<Name>, turns: &RoundLoop) -> Result<Expr, Memory>
    ensures { IfOk result (λ e. expression_of e ≡ trip_expression symbols.now turns.now) }
{
    trip_text(alloc, &[], symbols, &[], &turns.trip)
}

fn known_trips(alloc: Global, symbols: &Seq<Name>, loops: &[RoundLoop]) -> Result<Vec<Sub>, Memory>
    ensures { IfOk result (λ subs. map subscript_of subs.items ≡ map (known_trip_at symbols.now) loops.now) }
{
    let mut subs = Vec::new(alloc);
    for turns in loops {
        subs.push(only(known_trip(alloc, symbols, turns)?))?;
    }
    Ok(subs)
}

fn last_element(alloc: Global, symbols: &Seq<Name>, private: &Private) -> Result<Ref, Memory>
    ensures { IfOk result (λ r. reference_of r ≡ last_element symbols.now private.now) }
{
    let subs = known_trips(alloc, symbols, private.loops.as_slice())?;
    Ok(element_at(private.array, subs))
}

// ---- that the loops have turns

fn add_test(
    alloc: Global,
    symbols: &Seq<Name>,
    turns: &RoundLoop,
    tests: &mut Vec<Expr>,
) -> Result<(), Memory>
    ensures { OnOk result (map expression_of tests.new.items
        ≡ map expression_of tests.old.items ++ trip_test symbols.now turns.now) }
{
    if is_positive(&turns.trip) {
        return Ok(());
    }
    let trip = known_trip(alloc, symbols, turns)?;
    tests.push(at_least_one(alloc, trip)?)?;
    Ok(())
}

fn add_tests(
    alloc: Global,
    symbols: &Seq<Name>,
    loops: &[RoundLoop],
    tests: &mut Vec<Expr>,
) -> Result<(), Memory>
    ensures { OnOk result (map expression_of tests.new.items
        ≡ map expression_of tests.old.items ++ trip_tests symbols.now loops.now) }
{
    let Some((first, rest)) = loops.split_first() else {
        return Ok(());
    };
    add_test(alloc, symbols, first, tests)?;
    add_tests(alloc, symbols, rest, tests)
}

// ---- statements

/// A scalar, as what is assigned.
#[tactic(auto, using(tree::proofs::Equations::expression_equations))]
pub(crate) fn scalar(alloc: Global, name: Name) -> Ref
    ensures { reference_of result ≡ scalar name }
{
    Ref {
        name,
        subs: Seq::new(alloc),
    }
}

#[tactic(auto, using(tree::proofs::Equations::statement_equations))]
fn assigned(alloc: Global, line: u32, name: Name, value: Ref) -> Stmt
    ensures { statement_of result
        ≡ Assignment line None (scalar name) (as_expression (reference_of value)) }
{
    Stmt::Assign {
        line,
        mark: None,
        left: scalar(alloc, name),
        right: item(value),
    }
}

/// What a reference names.
#[tactic(auto, using(tree::proofs::Equations::expression_equations))]
pub(crate) fn item(value: Ref) -> Expr
    ensures { expression_of result ≡ as_expression (reference_of value) }
{
    Expr::Item(value)
}

// A block IF without an ELSE part.
fn only_where(alloc: Global, line: u32, test: Expr, stmts: Seq<Stmt>) -> Result<Stmt, Memory>
    ensures { IfOk result (λ stmt. statement_of stmt
        ≡ only_where line (expression_of test) (map statement_of stmts)) }
{
    let mut arms = Seq::new(alloc);
    let body = Block { stmts };
    arms.push(Arm { test, body })?;
    let other = Block {
        stmts: Seq::new(alloc),
    };
    Ok(Stmt::If { line, arms, other })
}

// A condition and further ones, joined from the left.
fn all_hold(alloc: Global, first: Expr, rest: &[Expr]) -> Result<Expr, Memory>
    ensures { IfOk result (λ e. expression_of e ≡ all_hold (expression_of first) (map expression_of rest.now)) }
{
    let Some((next, rest)) = rest.split_first() else {
        return Ok(first);
    };
    let next = next.copy(alloc)?;
    all_hold(alloc, two(alloc, Op::And, first, next)?, rest)
}

// In one block IF on these conditions, and in none where there are none.
fn where_all_hold(
    alloc: Global,
    line: u32,
    tests: &[Expr],
    stmts: Seq<Stmt>,
) -> Result<Seq<Stmt>, Memory>
    ensures { IfOk result (λ all. map statement_of all
        ≡ where_all_hold line (map expression_of tests.now) (map statement_of stmts)) }
{
    let Some((first, rest)) = tests.split_first() else {
        return Ok(stmts);
    };
    let test = all_hold(alloc, first.copy(alloc)?, rest)?;
    let mut all = Seq::new(alloc);
    all.push(only_where(alloc, line, test, stmts)?)?;
    Ok(all)
}

fn last_assignment(
    alloc: Global,
    symbols: &Seq<Name>,
    line: u32,
    private: &Private,
) -> Result<Seq<Stmt>, Memory>
    ensures { IfOk result (λ stmts. map statement_of stmts
        ≡ last_assignment symbols.now line private.now ∷ []) }
{
    let value = last_element(alloc, symbols, private)?;
    let mut stmts = Seq::new(alloc);
    stmts.push(assigned(alloc, line, private.name, value))?;
    Ok(stmts)
}

fn last_value(
    alloc: Global,
    symbols: &Seq<Name>,
    line: u32,
    private: &Private,
) -> Result<Seq<Stmt>, Memory>
    ensures { IfOk result (λ stmts. map statement_of stmts ≡ last_value symbols.now line private.now) }
{
    if !has_known_end(private) {
        return Ok(Seq::new(alloc));
    }
    let mut tests = Vec::new(alloc);
    add_tests(alloc, symbols, private.loops.as_slice(), &mut tests)?;
    let stmts = last_assignment(alloc, symbols, line, private)?;
    where_all_hold(alloc, line, tests.as_slice(), stmts)
}

// ---- behind a nest

fn add_last_values(
    alloc: Global,
    symbols: &Seq<Name>,
    line: u32,
    privates: &[Private],
    stmts: &mut Vec<Stmt>,
) -> Result<(), Memory>
    ensures { OnOk result (map statement_of stmts.new.items
        ≡ map statement_of stmts.old.items ++ last_values symbols.now line privates.now) }
{
    let Some((first, rest)) = privates.split_first() else {
        return Ok(());
    };
    let mut value = last_value(alloc, symbols, line, first)?.into_vec();
    stmts.append(&mut value)?;
    add_last_values(alloc, symbols, line, rest, stmts)
}

// A block and further statements behind it.
#[tactic(auto, using(crate::proofs::BlockLaws::block_laws))]
fn joined(first: Block, mut more: Vec<Stmt>) -> Result<Block, Memory>
    ensures { IfOk result (λ both. block_of both
        ≡ block_then (block_of first) (block (map statement_of more.items))) }
{
    let mut stmts = first.stmts.into_vec();
    stmts.append(&mut more)?;
    Ok(Block {
        stmts: Seq::from_vec(stmts),
    })
}

/// The block with the last values of these private scalars behind it.
pub(crate) fn with_last_values(
    alloc: Global,
    symbols: &Seq<Name>,
    line: u32,
    privates: &[Private],
    after: &Block,
) -> Result<Block, Memory>
    ensures { IfOk result (λ all. block_of all
        ≡ block_then (block_of after.now) (block (last_values symbols.now line privates.now))) }
{
    let mut stmts = Vec::new(alloc);
    add_last_values(alloc, symbols, line, privates, &mut stmts)?;
    joined(after.copy(alloc)?, stmts)
}
