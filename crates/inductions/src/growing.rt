//! Statements in which a scalar grows by a constant.
ghost use Rattle.std.specs.Prelude.{◌≡◌, ◌≤◌, ◌^◌, IfSome, map, neg_ℤ, unsigned_abs};
ghost use Rattle.std.specs.Option.{option_and_then, option_map};
ghost use Rattle.tree.specs.View.{expression_of};
ghost use Rattle.linear_forms.specs.Linear.{constant_of};
ghost use Rattle.nest.specs.View.{guarded_of, loop_of};
ghost use Rattle.nest.specs.statement_loops.Standings.{standing_of};
ghost use Rattle.inductions.specs.Growing.{is_outermost, limited_step, only_write, step_at, step_by, step_in};
ghost use Rattle.inductions.specs.Growing.{growth_of};

use linear_forms::constant_value;
use nest::statement_loops::Standing;
use nest::{GuardedStmt, Loop};
use rewrite::is_variable;
use tree::{Expr, Name, Op, Seq, Value};

const LIMIT: u128 = 1 << 40;

// A constant by which a scalar may grow within the limits.
#[tactic(auto, using(crate::proofs::StepLaws::limit_laws))]
fn limited_constant(expr: &Expr) -> Option<i64>
    ensures value { result ≡ option_and_then limited_step (constant_of (expression_of expr.now)) }
    ensures small { IfSome result (λ step. unsigned_abs step ≤ 2 ^ 40) }
{
    let Some(Value::Int(number)) = constant_value(expr) else {
        return None;
    };
    if number.unsigned_abs() > LIMIT {
        return None;
    }
    Some(number as i64)
}

// The same where it goes down by the constant.
fn limited_negative(expr: &Expr) -> Option<i64>
    ensures { result ≡ option_and_then limited_step (option_map neg_ℤ (constant_of (expression_of expr.now))) }
{
    match limited_constant(expr) {
        Some(step) => Some(-step),
        None => None,
    }
}

fn step_by(name: Name, op: Op, a: &Expr, b: &Expr) -> Option<i64>
    ensures { result ≡ option_and_then limited_step (step_by name op (expression_of a.now) (expression_of b.now)) }
{
    match op {
        Op::Add => {
            if is_variable(a, name) {
                limited_constant(b)
            } else if is_variable(b, name) {
                limited_constant(a)
            } else {
                None
            }
        }
        Op::Sub => {
            if is_variable(a, name) {
                limited_negative(b)
            } else {
                None
            }
        }
        Op::Mul
        | Op::Pow
        | Op::Div
        | Op::Neg
        | Op::Lt
        | Op::Le
        | Op::Eq
        | Op::Ne
        | Op::Gt
        | Op::Ge
        | Op::Not
        | Op::And
        | Op::Or
        | Op::Eqv
        | Op::Neqv => None,
    }
}

#[tactic(auto, using(tree::proofs::Equations::expression_equations))]
fn step_in(name: Name, expr: &Expr) -> Option<i64>
    ensures { result ≡ option_and_then limited_step (step_in name (expression_of expr.now)) }
{
    match expr {
        Expr::Bin(op, a, b) => step_by(name, *op, a, b),
        Expr::Int(_)
        | Expr::Truth(_)
        | Expr::Item(_)
        | Expr::Un(..)
        | Expr::Call(..)
        | Expr::List(..)
        | Expr::Spread(..)
        | Expr::Transpose(_)
        | Expr::Reshape(..)
        | Expr::Reduce(..) => None,
    }
}

#[tactic(auto, using(crate::proofs::StepLaws::statement_laws))]
fn step_of(name: Name, stmt: &GuardedStmt) -> Option<i64>
    ensures { result ≡ growth_of name (guarded_of stmt.now) }
{
    if stmt.guard.is_some() {
        return None;
    }
    if stmt.left.subs.is_empty() {
        step_in(name, &stmt.right)
    } else {
        None
    }
}

fn is_outermost(loops: &Seq<Loop>) -> bool
    ensures { result ≡ is_outermost (map loop_of loops.now) }
{
    loops.len() == 1
}

/// By how much a scalar grows in the statement that writes it, if this is an unguarded `x = x + c`, `x = c + x` or
/// `x = x - c` with a constant c in the outermost loop's own body, and its forms are within the limits.
pub(crate) fn step_at(name: Name, standing: &Standing) -> Option<i64>
    ensures { result ≡ step_at name (standing_of standing.now) }
{
    if !is_outermost(&standing.loops) {
        return None;
    }
    step_of(name, &standing.stmt)
}

/// The number of the only statement that writes a name; None where none or several do.
pub(crate) fn only_write(all: &[Standing], name: Name) -> Option<usize>
    ensures { result ≡ only_write (map standing_of all.now) name }
{
    let mut found = None;
    for (number, standing) in all.iter().enumerate() {
        if standing.stmt.left.name == name {
            if found.is_some() {
                return None;
            }
            found = Some(number);
        }
    }
    found
}
