//! Numbers, and the texts of trips.
ghost use Rattle.std.specs.Prelude.{◌≡◌, ℕ, ◌≤◌, ◌==◌, IfOk, pos, length};
ghost use Rattle.tree.specs.Plain.{Binary, Number};
ghost use Rattle.tree.specs.View.{expression_of};
ghost use Rattle.std.specs.List.{list_all};
ghost use Rattle.std.specs.Ordering.{int_eq};
ghost use Rattle.subscripts.specs.Shapes.{IsForm};
ghost use Rattle.linear_forms.specs.Linear.{not_zero};
ghost use Rattle.array_form.specs.forms.Forms.{divided_text, number_text};
ghost use Rattle.array_form.specs.forms.Loops.{is_positive_constant};
ghost use Rattle.array_form.specs.holds.Surroundings.{coefficients_from, form_of_affine, form_trip_of};
ghost use Rattle.array_form.specs.Texts.{text_of_trip};

use crate::holds::{Surroundings, loop_names};
use linear_forms::express;
use nest::Trip;
use std::alloc::Global;
use subscripts::Affine;
use tree::{Expr, Memory, Op};

#[tactic(auto, using(tree::proofs::Equations::expression_equations))]
pub(crate) fn two(alloc: Global, op: Op, left: Expr, right: Expr) -> Result<Expr, Memory>
    ensures { IfOk result (λ e. expression_of e ≡ Binary op (expression_of left) (expression_of right)) }
{
    let left = Box::new(alloc, left)?;
    let right = Box::new(alloc, right)?;
    Ok(Expr::Bin(op, left, right))
}

#[tactic(auto, using(tree::proofs::Equations::expression_equations))]
fn literal(size: u64) -> Expr
    ensures { expression_of result ≡ Number (pos size) }
{
    Expr::Int(i128::from(size))
}

#[tactic(auto, using(crate::proofs::TextLaws::number_laws))]
pub(crate) fn number_text(alloc: Global, number: i64) -> Result<Expr, Memory>
    ensures { IfOk result (λ e. expression_of e ≡ number_text number) }
{
    let size = literal(number.unsigned_abs());
    if number < 0 {
        let size = Box::new(alloc, size)?;
        return Ok(Expr::Un(Op::Neg, size));
    }
    Ok(size)
}

fn divided_text(alloc: Global, by: u64, expr: Expr) -> Result<Expr, Memory>
    ensures { IfOk result (λ e. expression_of e ≡ divided_text by (expression_of expr)) }
{
    if by == 1 {
        return Ok(expr);
    }
    two(alloc, Op::Div, expr, literal(by))
}

/// The text of the trip of one of the loops round a statement.
pub fn trip_text(alloc: Global, a: &Surroundings, trip: Trip) -> Result<Expr, Memory>
    requires loops { length a.now.loops ≤ 7 }
    requires trip { IsForm (length a.now.loops) trip.top }
    ensures { IfOk result (λ e. expression_of e ≡ text_of_trip a.now trip) }
{
    let names = loop_names(alloc, a.loops.as_slice())?;
    let whole = express(alloc, &trip.top, names.as_slice(), &a.symbols, &[])?;
    divided_text(alloc, trip.by.unsigned_abs(), whole)
}

pub(crate) fn are_zero(numbers: &[i64]) -> bool
    ensures { result ≡ list_all (λ c. int_eq c (pos 0)) numbers.now }
{
    let Some((first, rest)) = numbers.split_first() else {
        return true;
    };
    *first == 0 && are_zero(rest)
}

#[tactic(auto, using(crate::proofs::TextLaws::symbol_laws))]
pub(crate) fn are_unused(symbols: &[(u16, i64)]) -> bool
    ensures { result ≡ list_all (λ c. int_eq c (pos 0)) (coefficients_from 0 symbols.now) }
{
    let Some((first, _)) = symbols.split_first() else {
        return true;
    };
    first.1 == 0
}

// Whether no loop and no symbol has a coefficient.
fn is_constant(form: &Affine) -> bool
    ensures { (n : ℕ) → n ≤ 7 → IsForm n form.now
        → result ≡ (not_zero (form_of_affine n form.now).coefficients == 0) }
{
    are_zero(&form.loops) && are_unused(&form.syms)
}

/// Whether it is a constant of at least 1.
pub fn is_positive_constant(trip: Trip) -> bool
    ensures { (n : ℕ) → n ≤ 7 → IsForm n trip.top → result ≡ is_positive_constant (form_trip_of n trip) }
{
    trip.by.unsigned_abs() == 1 && is_constant(&trip.top) && trip.top.constant >= 1
}
