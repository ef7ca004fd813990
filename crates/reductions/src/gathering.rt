//! How a statement gathers the values of an expression in a variable.
ghost use Rattle.std.specs.Prelude.{◌≡◌, map};
ghost use Rattle.std.specs.Option.{option_map};
ghost use Rattle.tree.specs.Plain.{expressions};
ghost use Rattle.tree.specs.View.{expression_of, reference_of};
ghost use Rattle.reductions.specs.Finding.{beside, gathered, gathered_by, gathered_in_call, of_two, taken_from};
ghost use Rattle.reductions.specs.Gathering.{gatherer};
ghost use Rattle.reductions.specs.View.{operand_of};

use crate::sameness::is_item;
use tree::{Expr, Fun, Op, Red, Ref, Seq};

/// A sum, a difference, a greatest or a least value: where it is true, what is gathered stands before the variable.
#[derive(Clone, Copy)]
pub enum Gathering {
    Adds(bool),
    Takes,
    Greatest(bool),
    Least(bool),
}

impl Gathering {
    /// The function that gathers all values of an array so.
    pub fn gatherer(self) -> Red
        ensures { result ≡ gatherer self }
    {
        match self {
            Gathering::Adds(_) | Gathering::Takes => Red::Sum,
            Gathering::Greatest(_) => Red::MaxVal,
            Gathering::Least(_) => Red::MinVal,
        }
    }
}

/// What is gathered, and how.
#[derive(Clone, Copy)]
pub(crate) struct Operand<'a> {
    pub how: Gathering,
    pub value: &'a Expr,
}

fn beside<'a>(
    left: &Ref,
    behind: Gathering,
    before: Gathering,
    a: &'a Expr,
    b: &'a Expr,
) -> Option<Operand<'a>>
    ensures { option_map operand_of result
        ≡ beside (reference_of left.now) behind before (expression_of a.now) (expression_of b.now) }
{
    if is_item(left, a) {
        return Some(Operand {
            how: behind,
            value: b,
        });
    }
    if is_item(left, b) {
        return Some(Operand {
            how: before,
            value: a,
        });
    }
    None
}

fn taken_from<'a>(left: &Ref, a: &Expr, b: &'a Expr) -> Option<Operand<'a>>
    ensures { option_map operand_of result
        ≡ taken_from (reference_of left.now) (expression_of a.now) (expression_of b.now) }
{
    if !is_item(left, a) {
        return None;
    }
    Some(Operand {
        how: Gathering::Takes,
        value: b,
    })
}

fn gathered_by<'a>(left: &Ref, op: Op, a: &'a Expr, b: &'a Expr) -> Option<Operand<'a>>
    ensures { option_map operand_of result
        ≡ gathered_by (reference_of left.now) op (expression_of a.now) (expression_of b.now) }
{
    match op {
        Op::Add => beside(left, Gathering::Adds(false), Gathering::Adds(true), a, b),
        Op::Sub => taken_from(left, a, b),
        Op::Pow
        | Op::Mul
        | Op::Div
        | Op::Neg
        | Op::Lt
        | Op::Le
        | Op::Eq
        | Op::Ne
        | Op::Gt
        | Op::Ge
        | Op::Not
        | Op::And
        | Op::Or
        | Op::Eqv
        | Op::Neqv => None,
    }
}

fn of_two<'a>(
    left: &Ref,
    behind: Gathering,
    before: Gathering,
    exprs: &'a [Expr],
) -> Option<Operand<'a>>
    ensures { option_map operand_of result ≡ of_two (reference_of left.now) behind before
        (expressions (map expression_of exprs.now)) }
{
    let Some((a, rest)) = exprs.split_first() else {
        return None;
    };
    let Some((b, more)) = rest.split_first() else {
        return None;
    };
    if more.split_first().is_some() {
        return None;
    }
    beside(left, behind, before, a, b)
}

fn gathered_in_call<'a>(left: &Ref, function: Fun, arguments: &'a Seq<Expr>) -> Option<Operand<'a>>
    ensures { option_map operand_of result ≡ gathered_in_call (reference_of left.now) function
        (expressions (map expression_of arguments.now)) }
{
    let exprs = arguments.as_slice();
    match function {
        Fun::Max => of_two(
            left,
            Gathering::Greatest(false),
            Gathering::Greatest(true),
            exprs,
        ),
        Fun::Min => of_two(left, Gathering::Least(false), Gathering::Least(true), exprs),
        Fun::Abs | Fun::Mod => None,
    }
}

/// What an assignment of this right side gathers in the variable: `x + e`, `e + x`, `x - e`, MAX and MIN of x and e.
#[tactic(auto, using(tree::proofs::Equations::expression_equations))]
pub(crate) fn gathered<'a>(left: &Ref, right: &'a Expr) -> Option<Operand<'a>>
    ensures { option_map operand_of result ≡ gathered (reference_of left.now) (expression_of right.now) }
{
    match right {
        Expr::Bin(op, a, b) => gathered_by(left, *op, a, b),
        Expr::Call(function, arguments) => gathered_in_call(left, *function, arguments),
        Expr::Int(_)
        | Expr::Truth(_)
        | Expr::Item(_)
        | Expr::Un(..)
        | Expr::List(..)
        | Expr::Spread(..)
        | Expr::Transpose(_)
        | Expr::Reshape(..)
        | Expr::Reduce(..) => None,
    }
}
