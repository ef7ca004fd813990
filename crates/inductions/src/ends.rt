//! The last values of inductions, behind the nest.
ghost use Rattle.std.specs.Prelude.{◌≡◌, [], ◌∷◌, IfOk, map};
ghost use Rattle.tree.specs.View.{expression_of, statement_of};
ghost use Rattle.last_values.specs.Endings.{assigned, only_where};
ghost use Rattle.last_values.specs.normal_forms.Texts.{trip_text};
ghost use Rattle.inductions.specs.Ends.{induction_end_text, induction_ending};

use crate::found::Induction;
use last_values::normal_forms::{at_least_one, is_positive, trip_text};
use linear_forms::express;
use nest::Trip;
use statement_passes::with_name;
use std::alloc::Global;
use tree::{Arm, Block, Expr, Memory, Name, Ref, Seq, Stmt};

#[tactic(auto, using(tree::proofs::Equations::statement_equations, tree::proofs::Equations::expression_equations))]
fn assigned(alloc: Global, line: u32, variable: Name, value: Expr) -> Stmt
    ensures { statement_of result ≡ assigned line variable (expression_of value) }
{
    Stmt::Assign {
        line,
        mark: None,
        left: Ref {
            name: variable,
            subs: Seq::new(alloc),
        },
        right: value,
    }
}

// A block IF without an ELSE part.
#[tactic(auto, using(tree::proofs::Equations::statement_equations))]
fn only_where(alloc: Global, line: u32, test: Expr, stmts: Seq<Stmt>) -> Result<Stmt, Memory>
    ensures { IfOk result (λ stmt. statement_of stmt
        ≡ only_where line (expression_of test) (map statement_of stmts)) }
{
    let mut arms = Seq::new(alloc);
    let body = Block { stmts };
    arms.push(Arm { test, body })?;
    let other = Block {
        stmts: Seq::new(alloc),
    };
    Ok(Stmt::If { line, arms, other })
}

// The trip of the outermost loop.
fn outer_trip(alloc: Global, symbols: &Seq<Name>, trip: &Trip) -> Result<Expr, Memory>
    ensures { IfOk result (λ e. expression_of e ≡ trip_text [] symbols.now [] trip.now) }
{
    trip_text(alloc, &[], symbols, &[], trip)
}

fn end_text(
    alloc: Global,
    symbols: &Seq<Name>,
    trip: &Trip,
    induction: &Induction,
) -> Result<Expr, Memory>
    ensures { IfOk result (λ e. expression_of e ≡ induction_end_text symbols.now trip.now induction.now) }
{
    let all = with_name(alloc, symbols, induction.name)?;
    let mut trips = Vec::new(alloc);
    trips.push(outer_trip(alloc, symbols, trip)?)?;
    express(alloc, &induction.end, &[], &all, trips.as_slice())
}

fn last_value(
    alloc: Global,
    symbols: &Seq<Name>,
    line: u32,
    trip: &Trip,
    induction: &Induction,
) -> Result<Stmt, Memory>
    ensures { IfOk result (λ stmt. statement_of stmt
        ≡ assigned line induction.now.name (induction_end_text symbols.now trip.now induction.now)) }
{
    let value = end_text(alloc, symbols, trip, induction)?;
    Ok(assigned(alloc, line, induction.name, value))
}

/// The last value of an induction, in an IF where the loop may have no turn; `symbols` are those of the nest, without
/// the induction.
pub(crate) fn ending(
    alloc: Global,
    symbols: &Seq<Name>,
    line: u32,
    trip: &Trip,
    induction: &Induction,
) -> Result<Stmt, Memory>
    ensures { IfOk result (λ stmt. statement_of stmt ≡ induction_ending symbols.now line trip.now induction.now) }
{
    if is_positive(trip) {
        return last_value(alloc, symbols, line, trip, induction);
    }
    let mut stmts = Seq::new(alloc);
    stmts.push(last_value(alloc, symbols, line, trip, induction)?)?;
    let test = at_least_one(alloc, outer_trip(alloc, symbols, trip)?)?;
    only_where(alloc, line, test, stmts)
}
