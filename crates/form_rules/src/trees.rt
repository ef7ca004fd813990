//! Trees in canonical text. Each node is looked at once: what is known of it is handed to the node round it.
ghost use Rattle.std.specs.Prelude.{◌≡◌, ◌≤◌, ◌^◌, List, length, map, IfOk};
ghost use Rattle.rewrite.specs.Making.{made, made_parts, made_subscript};
ghost use Rattle.rewrite.specs.Names.{uses_in_subscript, uses_in_subscripts};
ghost use Rattle.rewrite.specs.NamesAlong.{uses_in_loop};
ghost use Rattle.tree.specs.Plain.{Apply, Binary, Constructor, Expression, Named, Reduce, Reshape, Spread};
ghost use Rattle.tree.specs.Plain.{Transpose, Unary, expressions};
ghost use Rattle.tree.specs.View.{expression_of, loop_of, constructor_loops as plain_loops, reference_of, subscript_of};
ghost use Rattle.linear_forms.specs.Canonical.{canonising};
ghost use Rattle.form_rules.specs.Written.{IsWritten, AreWritten, AreArguments, SameLoop, SameLoops, SameParts};
ghost use Rattle.form_rules.specs.Written.{SameSubscript, SameSubscripts};

use crate::nodes::{
    Written, WrittenArguments, WrittenList, called, either, in_pair, listed, number, reduced,
    referred, reshaped, spread, transposed, truth, with_constant, with_sign,
};
use std::alloc::Global;
use tree::{Arguments, Expr, Fun, Memory, Name, Op, Red, Ref, Seq, Sub, Turn};

/// The expression with each node in canonical text in which the variable of a loop stood, in time linear in its size.
#[cycle(writing)]
pub(crate) fn write_expression(
    alloc: Global,
    expr: &Expr,
    loops: &[Name],
    symbols: &Seq<Name>,
) -> Result<Written, Memory>
    requires { length symbols.now ≤ 2 ^ 16 }
    ensures { IfOk result (λ w. IsWritten loops.now symbols.now (expression_of expr.now) w) }
{
    match expr {
        Expr::Int(value) => number(alloc, *value, loops, symbols),
        Expr::Truth(value) => truth(alloc, *value, loops, symbols),
        Expr::Item(item) => write_item(alloc, item, loops, symbols),
        Expr::Un(op, a) => write_sign(alloc, *op, a, loops, symbols),
        Expr::Bin(op, a, b) => {
            let a = write_expression(alloc, a, loops, symbols)?;
            write_pair(alloc, *op, a, b, loops, symbols)
        }
        Expr::Call(function, exprs) => write_call(alloc, *function, exprs, loops, symbols),
        Expr::List(values, turns) => {
            let values = write_all(alloc, values, loops, symbols)?;
            write_list(alloc, values, turns, loops, symbols)
        }
        Expr::Spread(array, dimension, extent) => {
            let array = write_expression(alloc, array, loops, symbols)?;
            write_spread(alloc, array, *dimension, extent, loops, symbols)
        }
        Expr::Transpose(array) => write_transpose(alloc, array, loops, symbols),
        Expr::Reshape(array, extents) => {
            let array = write_expression(alloc, array, loops, symbols)?;
            write_reshape(alloc, array, extents, loops, symbols)
        }
        Expr::Reduce(reduction, array) => write_reduce(alloc, *reduction, array, loops, symbols),
    }
}

#[cycle(writing)]
fn write_item(
    alloc: Global,
    item: &Ref,
    loops: &[Name],
    symbols: &Seq<Name>,
) -> Result<Written, Memory>
    requires { length symbols.now ≤ 2 ^ 16 }
    ensures { IfOk result (λ w.
        IsWritten loops.now symbols.now (Named (reference_of item.now).name (reference_of item.now).subscripts) w) }
{
    let parts = write_parts(alloc, item, loops, symbols)?;
    referred(alloc, parts.0, parts.1, loops, symbols)
}

#[cycle(writing)]
fn write_sign(
    alloc: Global,
    op: Op,
    a: &Expr,
    loops: &[Name],
    symbols: &Seq<Name>,
) -> Result<Written, Memory>
    requires { length symbols.now ≤ 2 ^ 16 }
    ensures { IfOk result (λ w. IsWritten loops.now symbols.now (Unary op (expression_of a.now)) w) }
{
    let a = write_expression(alloc, a, loops, symbols)?;
    with_sign(alloc, op, a, loops, symbols)
}

#[cycle(writing)]
fn write_pair(
    alloc: Global,
    op: Op,
    a: Written,
    b: &Expr,
    loops: &[Name],
    symbols: &Seq<Name>,
) -> Result<Written, Memory>
    requires { length symbols.now ≤ 2 ^ 16 }
    ensures { (d : Expression) → IsWritten loops.now symbols.now d a
        → IfOk result (λ w. IsWritten loops.now symbols.now (Binary op d (expression_of b.now)) w) }
{
    let b = write_expression(alloc, b, loops, symbols)?;
    in_pair(alloc, op, a, b, loops, symbols)
}

#[cycle(writing)]
fn write_call(
    alloc: Global,
    function: Fun,
    exprs: &Seq<Expr>,
    loops: &[Name],
    symbols: &Seq<Name>,
) -> Result<Written, Memory>
    requires { length symbols.now ≤ 2 ^ 16 }
    ensures { IfOk result (λ w.
        IsWritten loops.now symbols.now (Apply function (expressions (map expression_of exprs.now))) w) }
{
    let arguments = write_arguments(alloc, function, exprs, loops, symbols)?;
    called(alloc, function, arguments, loops, symbols)
}

#[cycle(writing)]
fn write_list(
    alloc: Global,
    values: WrittenList,
    turns: &Seq<Turn>,
    loops: &[Name],
    symbols: &Seq<Name>,
) -> Result<Written, Memory>
    requires { length symbols.now ≤ 2 ^ 16 }
    ensures { (es : List Expression) → AreWritten loops.now symbols.now es values
        → IfOk result (λ w.
        IsWritten loops.now symbols.now (Constructor (expressions es) (plain_loops (map loop_of turns.now))) w) }
{
    let turns = write_turns(alloc, turns, loops, symbols)?;
    listed(alloc, values, turns, loops, symbols)
}

#[cycle(writing)]
fn write_spread(
    alloc: Global,
    array: Written,
    dimension: usize,
    extent: &Expr,
    loops: &[Name],
    symbols: &Seq<Name>,
) -> Result<Written, Memory>
    requires { length symbols.now ≤ 2 ^ 16 }
    ensures { (d : Expression) → IsWritten loops.now symbols.now d array
        → IfOk result (λ w. IsWritten loops.now symbols.now (Spread d dimension (expression_of extent.now)) w) }
{
    let extent = write_expression(alloc, extent, loops, symbols)?;
    spread(alloc, array, dimension, extent, loops, symbols)
}

#[cycle(writing)]
fn write_transpose(
    alloc: Global,
    array: &Expr,
    loops: &[Name],
    symbols: &Seq<Name>,
) -> Result<Written, Memory>
    requires { length symbols.now ≤ 2 ^ 16 }
    ensures { IfOk result (λ w. IsWritten loops.now symbols.now (Transpose (expression_of array.now)) w) }
{
    let array = write_expression(alloc, array, loops, symbols)?;
    transposed(alloc, array, loops, symbols)
}

#[cycle(writing)]
fn write_reshape(
    alloc: Global,
    array: Written,
    extents: &Seq<Expr>,
    loops: &[Name],
    symbols: &Seq<Name>,
) -> Result<Written, Memory>
    requires { length symbols.now ≤ 2 ^ 16 }
    ensures { (d : Expression) → IsWritten loops.now symbols.now d array
        → IfOk result (λ w.
        IsWritten loops.now symbols.now (Reshape d (expressions (map expression_of extents.now))) w) }
{
    let extents = write_all(alloc, extents, loops, symbols)?;
    reshaped(alloc, array, extents, loops, symbols)
}

#[cycle(writing)]
fn write_reduce(
    alloc: Global,
    reduction: Red,
    array: &Expr,
    loops: &[Name],
    symbols: &Seq<Name>,
) -> Result<Written, Memory>
    requires { length symbols.now ≤ 2 ^ 16 }
    ensures { IfOk result (λ w. IsWritten loops.now symbols.now (Reduce reduction (expression_of array.now)) w) }
{
    let array = write_expression(alloc, array, loops, symbols)?;
    reduced(alloc, reduction, array, loops, symbols)
}

#[cycle(writing)]
fn write_all(
    alloc: Global,
    exprs: &Seq<Expr>,
    loops: &[Name],
    symbols: &Seq<Name>,
) -> Result<WrittenList, Memory>
    requires { length symbols.now ≤ 2 ^ 16 }
    ensures { IfOk result (λ list. AreWritten loops.now symbols.now (map expression_of exprs.now) list) }
{
    let mut made = Seq::new(alloc);
    let mut had_loop = false;
    for expr in exprs.as_slice() {
        let written = write_expression(alloc, expr, loops, symbols)?;
        had_loop = either(had_loop, written.had_loop);
        made.push(written.expr)?;
    }
    Ok(WrittenList {
        exprs: made,
        had_loop,
    })
}

#[cycle(writing)]
fn write_arguments(
    alloc: Global,
    function: Fun,
    exprs: &Seq<Expr>,
    loops: &[Name],
    symbols: &Seq<Name>,
) -> Result<WrittenArguments, Memory>
    requires { length symbols.now ≤ 2 ^ 16 }
    ensures { IfOk result (λ arguments.
        AreArguments loops.now symbols.now function (map expression_of exprs.now) arguments) }
{
    let mut made = Seq::new(alloc);
    let mut had_loop = false;
    let mut given = Some(Arguments::Empty);
    for expr in exprs.as_slice() {
        let written = write_expression(alloc, expr, loops, symbols)?;
        had_loop = either(had_loop, written.had_loop);
        given = with_constant(function, given, written.part.constant);
        made.push(written.expr)?;
    }
    let list = WrittenList {
        exprs: made,
        had_loop,
    };
    Ok(WrittenArguments { list, given })
}

#[cycle(writing)]
fn write_turns(
    alloc: Global,
    turns: &Seq<Turn>,
    loops: &[Name],
    symbols: &Seq<Name>,
) -> Result<(Seq<Turn>, bool), Memory>
    requires { length symbols.now ≤ 2 ^ 16 }
    ensures { IfOk result (λ made. SameLoops loops.now symbols.now (map loop_of turns.now) made.0 made.1) }
{
    let mut made = Seq::new(alloc);
    let mut had_loop = false;
    for turn in turns.as_slice() {
        let written = write_turn(alloc, turn, loops, symbols)?;
        had_loop = either(had_loop, written.1);
        made.push(written.0)?;
    }
    Ok((made, had_loop))
}

#[cycle(writing)]
fn write_turn(
    alloc: Global,
    turn: &Turn,
    loops: &[Name],
    symbols: &Seq<Name>,
) -> Result<(Turn, bool), Memory>
    requires { length symbols.now ≤ 2 ^ 16 }
    ensures { IfOk result (λ made. SameLoop loops.now symbols.now (loop_of turn.now) made.0 made.1) }
{
    let first = write_expression(alloc, &turn.first, loops, symbols)?;
    let last = write_expression(alloc, &turn.last, loops, symbols)?;
    let had_loop = either(first.had_loop, last.had_loop);
    let made = Turn {
        var: turn.var,
        first: first.expr,
        last: last.expr,
    };
    Ok((made, had_loop))
}

/// A reference with its subscripts so, which keeps its name, and whether the variable of a loop stood in them.
#[cycle(writing)]
pub(crate) fn write_parts(
    alloc: Global,
    item: &Ref,
    loops: &[Name],
    symbols: &Seq<Name>,
) -> Result<(Ref, bool), Memory>
    requires { length symbols.now ≤ 2 ^ 16 }
    ensures { IfOk result (λ made. SameParts loops.now symbols.now (reference_of item.now) made.0 made.1) }
{
    let written = write_subscripts(alloc, &item.subs, loops, symbols)?;
    let made = Ref {
        name: item.name,
        subs: written.0,
    };
    Ok((made, written.1))
}

#[cycle(writing)]
fn write_subscripts(
    alloc: Global,
    subs: &Seq<Sub>,
    loops: &[Name],
    symbols: &Seq<Name>,
) -> Result<(Seq<Sub>, bool), Memory>
    requires { length symbols.now ≤ 2 ^ 16 }
    ensures { IfOk result (λ made. SameSubscripts loops.now symbols.now (map subscript_of subs.now) made.0 made.1) }
{
    let mut made = Seq::new(alloc);
    let mut had_loop = false;
    for sub in subs.as_slice() {
        let written = write_subscript(alloc, sub, loops, symbols)?;
        had_loop = either(had_loop, written.1);
        made.push(written.0)?;
    }
    Ok((made, had_loop))
}

#[cycle(writing)]
fn write_subscript(
    alloc: Global,
    sub: &Sub,
    loops: &[Name],
    symbols: &Seq<Name>,
) -> Result<(Sub, bool), Memory>
    requires { length symbols.now ≤ 2 ^ 16 }
    ensures { IfOk result (λ made. SameSubscript loops.now symbols.now (subscript_of sub.now) made.0 made.1) }
{
    match sub {
        Sub::One(expr) => {
            let written = write_expression(alloc, expr, loops, symbols)?;
            Ok((Sub::One(written.expr), written.had_loop))
        }
        Sub::Part(lower, upper, stride) => {
            let lower = write_expression(alloc, lower, loops, symbols)?;
            let upper = write_expression(alloc, upper, loops, symbols)?;
            let stride = write_expression(alloc, stride, loops, symbols)?;
            let both = either(lower.had_loop, upper.had_loop);
            let had_loop = either(both, stride.had_loop);
            Ok((Sub::Part(lower.expr, upper.expr, stride.expr), had_loop))
        }
    }
}
