//! One node in canonical text, whose parts are so, with what is known of it.
ghost use Rattle.std.specs.Prelude.{◌≡◌, ◌≤◌, ◌^◌, ◌||◌, List, length, IfOk};
ghost use Rattle.meaning.specs.Names.{is_among};
ghost use Rattle.rewrite.specs.Making.{made_parts};
ghost use Rattle.rewrite.specs.Names.{uses_in_subscripts};
ghost use Rattle.tree.specs.Plain.{Apply, Binary, Constructor, Expression, Logic, Named, Number, Reduce, Reference};
ghost use Rattle.tree.specs.Plain.{Reshape, Spread, Transpose, Unary, expressions};
ghost use Rattle.tree.specs.View.{ConstructorLoop, constructor_loops as plain_loops, reference_of};
ghost use Rattle.linear_forms.specs.Canonical.{canonising};
ghost use Rattle.form_rules.specs.Written.{AreArguments, AreWritten, IsReady, IsWritten, SameLoops, call_of};
ghost use Rattle.form_rules.specs.Written.{form_to_write, stands_in, with_constant};

use linear_forms::{Part, constant_part, express, known, name_form, pair_part, part_of, sign_part};
use std::alloc::Global;
use subscripts::Affine;
use tree::{Arguments, Expr, Fun, Memory, Name, Op, Red, Ref, Seq, Turn, Value};

/// An expression in canonical text, and what is known of it.
#[derive(Drop)]
pub(crate) struct Written {
    pub expr: Expr,
    /// Whether the variable of a loop stood in it as it was first written.
    pub had_loop: bool,
    pub part: Part,
}

/// Expressions in canonical text, and whether the variable of a loop stood in one of them.
#[derive(Drop)]
pub(crate) struct WrittenList {
    pub exprs: Seq<Expr>,
    pub had_loop: bool,
}

/// Arguments of a function in canonical text.
#[derive(Drop)]
pub(crate) struct WrittenArguments {
    pub list: WrittenList,
    /// What the function was given, where each of them is constant.
    pub given: Option<Arguments>,
}

// What is known of an expression that is no constant and has no form.
const UNKNOWN: Part = Part {
    constant: None,
    form: None,
};

pub(crate) fn either(a: bool, b: bool) -> bool
    ensures { result ≡ (a || b) }
{
    a || b
}

// The form of which a node is to be the text, where the variable of a loop stood in it.
fn form_to_write(had_loop: bool, part: Part, loops: &[Name]) -> Option<Affine>
    ensures { result ≡ form_to_write had_loop (length loops.now) part.form }
{
    if had_loop && loops.len() <= 7 {
        part.form
    } else {
        None
    }
}

// A node whose parts are written.
fn settled(
    alloc: Global,
    node: Expr,
    had_loop: bool,
    part: Part,
    loops: &[Name],
    symbols: &Seq<Name>,
) -> Result<Written, Memory>
    requires { length symbols.now ≤ 2 ^ 16 }
    ensures { (e : Expression) → IsReady loops.now symbols.now e node had_loop part
        → IfOk result (λ w. IsWritten loops.now symbols.now e w) }
{
    match form_to_write(had_loop, part, loops) {
        None => Ok(Written {
            expr: node,
            had_loop,
            part,
        }),
        Some(form) => {
            let expr = express(alloc, &form, loops, symbols, &[])?;
            let part = part_of(&expr, loops, symbols.as_slice());
            Ok(Written {
                expr,
                had_loop,
                part,
            })
        }
    }
}

pub(crate) fn number(
    alloc: Global,
    value: i128,
    loops: &[Name],
    symbols: &Seq<Name>,
) -> Result<Written, Memory>
    requires { length symbols.now ≤ 2 ^ 16 }
    ensures { IfOk result (λ w. IsWritten loops.now symbols.now (Number value) w) }
{
    let part = constant_part(Some(Value::Int(value)));
    settled(alloc, Expr::Int(value), false, part, loops, symbols)
}

pub(crate) fn truth(
    alloc: Global,
    value: bool,
    loops: &[Name],
    symbols: &Seq<Name>,
) -> Result<Written, Memory>
    requires { length symbols.now ≤ 2 ^ 16 }
    ensures { IfOk result (λ w. IsWritten loops.now symbols.now (Logic value) w) }
{
    let part = Part {
        constant: Some(Value::Truth(value)),
        form: None,
    };
    settled(alloc, Expr::Truth(value), false, part, loops, symbols)
}

fn is_among(name: Name, names: &[Name]) -> bool
    ensures { result ≡ is_among names.now name }
{
    names.iter().any(|one| name == *one)
}

pub(crate) fn with_sign(
    alloc: Global,
    op: Op,
    a: Written,
    loops: &[Name],
    symbols: &Seq<Name>,
) -> Result<Written, Memory>
    requires { length symbols.now ≤ 2 ^ 16 }
    ensures { (d : Expression) → IsWritten loops.now symbols.now d a
        → IfOk result (λ w. IsWritten loops.now symbols.now (Unary op d) w) }
{
    let part = sign_part(op, a.part);
    let had_loop = a.had_loop;
    let operand = Box::new(alloc, a.expr)?;
    settled(alloc, Expr::Un(op, operand), had_loop, part, loops, symbols)
}

pub(crate) fn in_pair(
    alloc: Global,
    op: Op,
    a: Written,
    b: Written,
    loops: &[Name],
    symbols: &Seq<Name>,
) -> Result<Written, Memory>
    requires { length symbols.now ≤ 2 ^ 16 }
    ensures { (d e : Expression) → IsWritten loops.now symbols.now d a → IsWritten loops.now symbols.now e b
        → IfOk result (λ w. IsWritten loops.now symbols.now (Binary op d e) w) }
{
    let part = pair_part(op, a.part, b.part);
    let had_loop = either(a.had_loop, b.had_loop);
    let left = Box::new(alloc, a.expr)?;
    let right = Box::new(alloc, b.expr)?;
    settled(
        alloc,
        Expr::Bin(op, left, right),
        had_loop,
        part,
        loops,
        symbols,
    )
}

pub(crate) fn with_constant(
    function: Fun,
    given: Option<Arguments>,
    constant: Option<Value>,
) -> Option<Arguments>
    ensures { result ≡ with_constant function given constant }
{
    let Some(given) = given else {
        return None;
    };
    match constant {
        Some(value) => Some(given.with(function, value)),
        None => None,
    }
}

fn call_of(function: Fun, given: Option<Arguments>) -> Option<Value>
    ensures { result ≡ call_of function given }
{
    match given {
        Some(given) => known(given.call(function)),
        None => None,
    }
}

pub(crate) fn called(
    alloc: Global,
    function: Fun,
    arguments: WrittenArguments,
    loops: &[Name],
    symbols: &Seq<Name>,
) -> Result<Written, Memory>
    requires { length symbols.now ≤ 2 ^ 16 }
    ensures { (es : List Expression) → AreArguments loops.now symbols.now function es arguments
        → IfOk result (λ w. IsWritten loops.now symbols.now (Apply function (expressions es)) w) }
{
    let part = constant_part(call_of(function, arguments.given));
    let list = arguments.list;
    let node = Expr::Call(function, list.exprs);
    settled(alloc, node, list.had_loop, part, loops, symbols)
}

pub(crate) fn referred(
    alloc: Global,
    item: Ref,
    had_loop: bool,
    loops: &[Name],
    symbols: &Seq<Name>,
) -> Result<Written, Memory>
    requires { length symbols.now ≤ 2 ^ 16 }
    ensures { (r : Reference) → reference_of item ≡ made_parts (canonising loops.now symbols.now) r
        → had_loop ≡ stands_in loops.now (uses_in_subscripts r.subscripts)
        → IfOk result (λ w. IsWritten loops.now symbols.now (Named r.name r.subscripts) w) }
{
    let form = name_form(&item, loops, symbols.as_slice());
    let had_loop = either(is_among(item.name, loops), had_loop);
    let part = Part {
        constant: None,
        form,
    };
    settled(alloc, Expr::Item(item), had_loop, part, loops, symbols)
}

pub(crate) fn listed(
    alloc: Global,
    list: WrittenList,
    turns: (Seq<Turn>, bool),
    loops: &[Name],
    symbols: &Seq<Name>,
) -> Result<Written, Memory>
    requires { length symbols.now ≤ 2 ^ 16 }
    ensures { (es : List Expression) (ls : List ConstructorLoop) → AreWritten loops.now symbols.now es list
        → SameLoops loops.now symbols.now ls turns.0 turns.1
        → IfOk result (λ w. IsWritten loops.now symbols.now (Constructor (expressions es) (plain_loops ls)) w) }
{
    let had_loop = either(list.had_loop, turns.1);
    let node = Expr::List(list.exprs, turns.0);
    settled(alloc, node, had_loop, UNKNOWN, loops, symbols)
}

pub(crate) fn spread(
    alloc: Global,
    array: Written,
    dimension: usize,
    extent: Written,
    loops: &[Name],
    symbols: &Seq<Name>,
) -> Result<Written, Memory>
    requires { length symbols.now ≤ 2 ^ 16 }
    ensures { (d e : Expression) → IsWritten loops.now symbols.now d array → IsWritten loops.now symbols.now e extent
        → IfOk result (λ w. IsWritten loops.now symbols.now (Spread d dimension e) w) }
{
    let had_loop = either(array.had_loop, extent.had_loop);
    let left = Box::new(alloc, array.expr)?;
    let right = Box::new(alloc, extent.expr)?;
    let node = Expr::Spread(left, dimension, right);
    settled(alloc, node, had_loop, UNKNOWN, loops, symbols)
}

pub(crate) fn transposed(
    alloc: Global,
    array: Written,
    loops: &[Name],
    symbols: &Seq<Name>,
) -> Result<Written, Memory>
    requires { length symbols.now ≤ 2 ^ 16 }
    ensures { (d : Expression) → IsWritten loops.now symbols.now d array
        → IfOk result (λ w. IsWritten loops.now symbols.now (Transpose d) w) }
{
    let had_loop = array.had_loop;
    let inner = Box::new(alloc, array.expr)?;
    settled(
        alloc,
        Expr::Transpose(inner),
        had_loop,
        UNKNOWN,
        loops,
        symbols,
    )
}

pub(crate) fn reshaped(
    alloc: Global,
    array: Written,
    extents: WrittenList,
    loops: &[Name],
    symbols: &Seq<Name>,
) -> Result<Written, Memory>
    requires { length symbols.now ≤ 2 ^ 16 }
    ensures { (d : Expression) (es : List Expression) → IsWritten loops.now symbols.now d array
        → AreWritten loops.now symbols.now es extents
        → IfOk result (λ w. IsWritten loops.now symbols.now (Reshape d (expressions es)) w) }
{
    let had_loop = either(array.had_loop, extents.had_loop);
    let inner = Box::new(alloc, array.expr)?;
    let node = Expr::Reshape(inner, extents.exprs);
    settled(alloc, node, had_loop, UNKNOWN, loops, symbols)
}

pub(crate) fn reduced(
    alloc: Global,
    reduction: Red,
    array: Written,
    loops: &[Name],
    symbols: &Seq<Name>,
) -> Result<Written, Memory>
    requires { length symbols.now ≤ 2 ^ 16 }
    ensures { (d : Expression) → IsWritten loops.now symbols.now d array
        → IfOk result (λ w. IsWritten loops.now symbols.now (Reduce reduction d) w) }
{
    let had_loop = array.had_loop;
    let inner = Box::new(alloc, array.expr)?;
    let node = Expr::Reduce(reduction, inner);
    settled(alloc, node, had_loop, UNKNOWN, loops, symbols)
}
