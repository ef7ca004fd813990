//! Whether two expressions are one and the same tree.
ghost use Rattle.std.specs.Prelude.{◌≡◌, ℕ, false, IfSome, IsNone, map};
ghost use Rattle.tree.specs.Plain.{Expression, Expressions, Loops};
ghost use Rattle.tree.specs.Plain.{Apply, Binary, Constructor, Named, Reduce, Reshape, Spread};
ghost use Rattle.tree.specs.Plain.{Transpose, Unary, expressions, subscripts};
ghost use Rattle.tree.specs.View.{expression_of, loop_of, constructor_loops, reference_of, subscript_of};
ghost use Rattle.reductions.specs.Same.{is_reference, same, same_each, same_function, same_loops, same_operator};
ghost use Rattle.reductions.specs.Same.{same_reduction, same_subscript, same_subscripts, same_turn};
ghost use Rattle.tree.specs.Plain.{Logic, Number};

use tree::{Expr, Fun, Op, Red, Ref, Seq, Sub, Turn};

#[tactic(auto, using(crate::proofs::SameLaws::operator_laws))]
fn same_operator(one: Op, other: Op) -> bool
    ensures { result ≡ same_operator one other }
{
    one == other
}

#[tactic(auto, using(crate::proofs::SameLaws::operator_laws))]
fn same_function(one: Fun, other: Fun) -> bool
    ensures { result ≡ same_function one other }
{
    one == other
}

#[tactic(auto, using(crate::proofs::SameLaws::operator_laws))]
fn same_reduction(one: Red, other: Red) -> bool
    ensures { result ≡ same_reduction one other }
{
    one == other
}

#[tactic(auto, using(tree::proofs::Equations::expression_equations))]
fn is_number(number: i128, other: &Expr) -> bool
    ensures { result ≡ same (Number number) (expression_of other.now) }
{
    match other {
        Expr::Int(other) => number == *other,
        Expr::Truth(_)
        | Expr::Item(_)
        | Expr::Un(..)
        | Expr::Bin(..)
        | Expr::Call(..)
        | Expr::List(..)
        | Expr::Spread(..)
        | Expr::Transpose(_)
        | Expr::Reshape(..)
        | Expr::Reduce(..) => false,
    }
}

#[tactic(auto, using(tree::proofs::Equations::expression_equations))]
fn is_truth(truth: bool, other: &Expr) -> bool
    ensures { result ≡ same (Logic truth) (expression_of other.now) }
{
    match other {
        Expr::Truth(other) => truth == *other,
        Expr::Int(_)
        | Expr::Item(_)
        | Expr::Un(..)
        | Expr::Bin(..)
        | Expr::Call(..)
        | Expr::List(..)
        | Expr::Spread(..)
        | Expr::Transpose(_)
        | Expr::Reshape(..)
        | Expr::Reduce(..) => false,
    }
}

// ---- forms with several parts

#[derive(Clone, Copy)]
struct Operation<'a> {
    op: Op,
    left: &'a Expr,
    right: &'a Expr,
}

#[derive(Clone, Copy)]
struct Listed<'a> {
    values: &'a Seq<Expr>,
    turns: &'a Seq<Turn>,
}

#[derive(Clone, Copy)]
struct Spreading<'a> {
    array: &'a Expr,
    dimension: usize,
    extent: &'a Expr,
}

#[derive(Clone, Copy)]
struct Reshaping<'a> {
    array: &'a Expr,
    extents: &'a Seq<Expr>,
}

#[tactic(auto, using(tree::proofs::Equations::expression_equations))]
fn as_operation(expr: &Expr) -> Option<Operation<'_>>
    ensures some { IfSome result (λ p. expression_of expr.now
        ≡ Binary p.op (expression_of p.left.now) (expression_of p.right.now)) }
    ensures none { IsNone result → (o : Op) (a b : Expression)
        → same (Binary o a b) (expression_of expr.now) ≡ false }
{
    match expr {
        Expr::Bin(op, left, right) => Some(Operation {
            op: *op,
            left,
            right,
        }),
        Expr::Int(_)
        | Expr::Truth(_)
        | Expr::Item(_)
        | Expr::Un(..)
        | Expr::Call(..)
        | Expr::List(..)
        | Expr::Spread(..)
        | Expr::Transpose(_)
        | Expr::Reshape(..)
        | Expr::Reduce(..) => None,
    }
}

#[tactic(auto, using(tree::proofs::Equations::expression_equations))]
fn as_list(expr: &Expr) -> Option<Listed<'_>>
    ensures some { IfSome result (λ p. expression_of expr.now
        ≡ Constructor (expressions (map expression_of p.values.now)) (constructor_loops (map loop_of p.turns.now))) }
    ensures none { IsNone result → (es : Expressions) (ls : Loops)
        → same (Constructor es ls) (expression_of expr.now) ≡ false }
{
    match expr {
        Expr::List(values, turns) => Some(Listed { values, turns }),
        Expr::Int(_)
        | Expr::Truth(_)
        | Expr::Item(_)
        | Expr::Un(..)
        | Expr::Bin(..)
        | Expr::Call(..)
        | Expr::Spread(..)
        | Expr::Transpose(_)
        | Expr::Reshape(..)
        | Expr::Reduce(..) => None,
    }
}

#[tactic(auto, using(tree::proofs::Equations::expression_equations))]
fn as_spreading(expr: &Expr) -> Option<Spreading<'_>>
    ensures some { IfSome result (λ p. expression_of expr.now ≡ Spread (expression_of p.array.now) p.dimension
        (expression_of p.extent.now)) }
    ensures none { IsNone result → (a : Expression) (n : ℕ) (e : Expression)
        → same (Spread a n e) (expression_of expr.now) ≡ false }
{
    match expr {
        Expr::Spread(array, dimension, extent) => Some(Spreading {
            array,
            dimension: *dimension,
            extent,
        }),
        Expr::Int(_)
        | Expr::Truth(_)
        | Expr::Item(_)
        | Expr::Un(..)
        | Expr::Bin(..)
        | Expr::Call(..)
        | Expr::List(..)
        | Expr::Transpose(_)
        | Expr::Reshape(..)
        | Expr::Reduce(..) => None,
    }
}

#[tactic(auto, using(tree::proofs::Equations::expression_equations))]
fn as_reshaping(expr: &Expr) -> Option<Reshaping<'_>>
    ensures some { IfSome result (λ p. expression_of expr.now ≡ Reshape (expression_of p.array.now)
        (expressions (map expression_of p.extents.now))) }
    ensures none { IsNone result → (a : Expression) (es : Expressions)
        → same (Reshape a es) (expression_of expr.now) ≡ false }
{
    match expr {
        Expr::Reshape(array, extents) => Some(Reshaping { array, extents }),
        Expr::Int(_)
        | Expr::Truth(_)
        | Expr::Item(_)
        | Expr::Un(..)
        | Expr::Bin(..)
        | Expr::Call(..)
        | Expr::List(..)
        | Expr::Spread(..)
        | Expr::Transpose(_)
        | Expr::Reduce(..) => None,
    }
}

// ---- trees

/// Whether two expressions are the same.
#[cycle(same)]
#[tactic(auto, using(tree::proofs::Equations::expression_equations))]
pub(crate) fn is_same(one: &Expr, other: &Expr) -> bool
    ensures { result ≡ same (expression_of one.now) (expression_of other.now) }
{
    match one {
        Expr::Int(number) => is_number(*number, other),
        Expr::Truth(truth) => is_truth(*truth, other),
        Expr::Item(item) => is_item(item, other),
        Expr::Un(op, a) => is_unary(*op, a, other),
        Expr::Bin(op, a, b) => {
            let Some(parts) = as_operation(other) else {
                return false;
            };
            same_operator(*op, parts.op) && is_same(a, parts.left) && is_same(b, parts.right)
        }
        Expr::Call(function, arguments) => is_call(*function, arguments, other),
        Expr::List(values, turns) => {
            let Some(parts) = as_list(other) else {
                return false;
            };
            same_all(values, parts.values) && same_turns(turns, parts.turns)
        }
        Expr::Spread(array, dimension, extent) => {
            let Some(parts) = as_spreading(other) else {
                return false;
            };
            *dimension == parts.dimension
                && is_same(array, parts.array)
                && is_same(extent, parts.extent)
        }
        Expr::Transpose(array) => is_transpose(array, other),
        Expr::Reshape(array, extents) => {
            let Some(parts) = as_reshaping(other) else {
                return false;
            };
            is_same(array, parts.array) && same_all(extents, parts.extents)
        }
        Expr::Reduce(reduction, array) => is_reduction(*reduction, array, other),
    }
}

/// Whether an expression is the reference by itself.
#[cycle(same)]
#[tactic(auto, using(tree::proofs::Equations::expression_equations))]
pub(crate) fn is_item(item: &Ref, other: &Expr) -> bool
    ensures reference { result ≡ is_reference (reference_of item.now) (expression_of other.now) }
    ensures same { result ≡ same (Named (reference_of item.now).name (reference_of item.now).subscripts)
        (expression_of other.now) }
{
    match other {
        Expr::Item(other) => item.name == other.name && same_subs(&item.subs, &other.subs),
        Expr::Int(_)
        | Expr::Truth(_)
        | Expr::Un(..)
        | Expr::Bin(..)
        | Expr::Call(..)
        | Expr::List(..)
        | Expr::Spread(..)
        | Expr::Transpose(_)
        | Expr::Reshape(..)
        | Expr::Reduce(..) => false,
    }
}

#[cycle(same)]
#[tactic(auto, using(tree::proofs::Equations::expression_equations))]
fn is_unary(op: Op, a: &Expr, other: &Expr) -> bool
    ensures { result ≡ same (Unary op (expression_of a.now)) (expression_of other.now) }
{
    match other {
        Expr::Un(operator, b) => same_operator(op, *operator) && is_same(a, b),
        Expr::Int(_)
        | Expr::Truth(_)
        | Expr::Item(_)
        | Expr::Bin(..)
        | Expr::Call(..)
        | Expr::List(..)
        | Expr::Spread(..)
        | Expr::Transpose(_)
        | Expr::Reshape(..)
        | Expr::Reduce(..) => false,
    }
}

#[cycle(same)]
#[tactic(auto, using(tree::proofs::Equations::expression_equations))]
fn is_call(function: Fun, arguments: &Seq<Expr>, other: &Expr) -> bool
    ensures { result ≡ same (Apply function (expressions (map expression_of arguments.now)))
        (expression_of other.now) }
{
    match other {
        Expr::Call(name, others) => same_function(function, *name) && same_all(arguments, others),
        Expr::Int(_)
        | Expr::Truth(_)
        | Expr::Item(_)
        | Expr::Un(..)
        | Expr::Bin(..)
        | Expr::List(..)
        | Expr::Spread(..)
        | Expr::Transpose(_)
        | Expr::Reshape(..)
        | Expr::Reduce(..) => false,
    }
}

#[cycle(same)]
#[tactic(auto, using(tree::proofs::Equations::expression_equations))]
fn is_transpose(array: &Expr, other: &Expr) -> bool
    ensures { result ≡ same (Transpose (expression_of array.now)) (expression_of other.now) }
{
    match other {
        Expr::Transpose(transposed) => is_same(array, transposed),
        Expr::Int(_)
        | Expr::Truth(_)
        | Expr::Item(_)
        | Expr::Un(..)
        | Expr::Bin(..)
        | Expr::Call(..)
        | Expr::List(..)
        | Expr::Spread(..)
        | Expr::Reshape(..)
        | Expr::Reduce(..) => false,
    }
}

#[cycle(same)]
#[tactic(auto, using(tree::proofs::Equations::expression_equations))]
fn is_reduction(reduction: Red, array: &Expr, other: &Expr) -> bool
    ensures { result ≡ same (Reduce reduction (expression_of array.now)) (expression_of other.now) }
{
    match other {
        Expr::Reduce(function, reduced) => {
            same_reduction(reduction, *function) && is_same(array, reduced)
        }
        Expr::Int(_)
        | Expr::Truth(_)
        | Expr::Item(_)
        | Expr::Un(..)
        | Expr::Bin(..)
        | Expr::Call(..)
        | Expr::List(..)
        | Expr::Spread(..)
        | Expr::Transpose(_)
        | Expr::Reshape(..) => false,
    }
}

// ---- lists

#[cycle(same)]
fn same_all(exprs: &Seq<Expr>, others: &Seq<Expr>) -> bool
    ensures { result ≡ same_each (expressions (map expression_of exprs.now))
        (expressions (map expression_of others.now)) }
{
    let mut rest = others.as_slice();
    for expr in exprs.as_slice() {
        let Some((first, behind)) = rest.split_first() else {
            return false;
        };
        if !is_same(expr, first) {
            return false;
        }
        rest = behind;
    }
    rest.is_empty()
}

#[cycle(same)]
fn same_subs(subs: &Seq<Sub>, others: &Seq<Sub>) -> bool
    ensures { result ≡ same_subscripts (subscripts (map subscript_of subs.now))
        (subscripts (map subscript_of others.now)) }
{
    let mut rest = others.as_slice();
    for sub in subs.as_slice() {
        let Some((first, behind)) = rest.split_first() else {
            return false;
        };
        if !is_same_sub(sub, first) {
            return false;
        }
        rest = behind;
    }
    rest.is_empty()
}

#[cycle(same)]
#[tactic(auto, using(tree::proofs::Equations::expression_equations))]
fn is_same_sub(sub: &Sub, other: &Sub) -> bool
    ensures { result ≡ same_subscript (subscript_of sub.now) (subscript_of other.now) }
{
    match sub {
        Sub::One(a) => match other {
            Sub::One(b) => is_same(a, b),
            Sub::Part(..) => false,
        },
        Sub::Part(a, b, c) => match other {
            Sub::One(_) => false,
            Sub::Part(d, e, f) => is_same(a, d) && is_same(b, e) && is_same(c, f),
        },
    }
}

#[cycle(same)]
fn same_turns(turns: &Seq<Turn>, others: &Seq<Turn>) -> bool
    ensures { result
        ≡ same_loops (constructor_loops (map loop_of turns.now)) (constructor_loops (map loop_of others.now)) }
{
    let mut rest = others.as_slice();
    for turn in turns.as_slice() {
        let Some((first, behind)) = rest.split_first() else {
            return false;
        };
        if !is_same_turn(turn, first) {
            return false;
        }
        rest = behind;
    }
    rest.is_empty()
}

#[cycle(same)]
#[tactic(auto, using(crate::proofs::SameLaws::turn_laws))]
fn is_same_turn(turn: &Turn, other: &Turn) -> bool
    ensures { result ≡ same_turn (loop_of turn.now) (loop_of other.now) }
{
    turn.var == other.var && is_same(&turn.first, &other.first) && is_same(&turn.last, &other.last)
}
