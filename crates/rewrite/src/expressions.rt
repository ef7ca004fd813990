//! Expressions, node by node.
ghost use Rattle.std.specs.Prelude.{◌≡◌, map, IfOk};
ghost use Rattle.tree.specs.View.{expression_of, subscript_of, reference_of, loop_of, constructor_loops};
ghost use Rattle.tree.specs.Plain.{expressions, subscripts};
ghost use Rattle.rewrite.specs.Making.{made, made_expressions, made_subscripts, made_subscript, made_loops, made_parts};
ghost use Rattle.rewrite.specs.MadeBlocks.{made_inside, made_loop};

use crate::NodeRule;
use std::alloc::Global;
use tree::{Expr, Memory, Ref, Seq, Sub, Turn, both, three};

/// What a rule of nodes makes of an expression.
#[cycle(rewriting)]
#[tactic(auto, using(crate::proofs::Equations::made_is))]
pub fn rewrite_expression<R: NodeRule>(
    alloc: Global,
    expr: &Expr,
    rule: &mut R,
) -> Result<Expr, Memory>
    ensures made { IfOk result (λ new. expression_of new ≡ made (R.making rule.old) (expression_of expr.now)) }
    ensures same { R.making rule.new ≡ R.making rule.old }
{
    let node = rewrite_inside(alloc, expr, rule)?;
    rule.node(alloc, expr, node)
}

// The same node over what the rule makes of its parts.
#[cycle(rewriting)]
#[tactic(auto, using(tree::proofs::Equations::expression_equations))]
fn rewrite_inside<R: NodeRule>(alloc: Global, expr: &Expr, rule: &mut R) -> Result<Expr, Memory>
    ensures made { IfOk result (λ new. expression_of new ≡ made_inside (R.making rule.old) (expression_of expr.now)) }
    ensures same { R.making rule.new ≡ R.making rule.old }
{
    match expr {
        Expr::Int(number) => Ok(Expr::Int(*number)),
        Expr::Truth(truth) => Ok(Expr::Truth(*truth)),
        Expr::Item(item) => Ok(Expr::Item(rewrite_parts(alloc, item, rule)?)),
        Expr::Un(op, a) => Ok(Expr::Un(*op, rewrite_box(alloc, a, rule)?)),
        Expr::Bin(op, a, b) => {
            let a = rewrite_box(alloc, a, rule)?;
            Ok(Expr::Bin(*op, a, rewrite_box(alloc, b, rule)?))
        }
        Expr::Call(function, arguments) => {
            Ok(Expr::Call(*function, rewrite_all(alloc, arguments, rule)?))
        }
        Expr::List(values, turns) => {
            let values = rewrite_all(alloc, values, rule)?;
            Ok(Expr::List(values, rewrite_turns(alloc, turns, rule)?))
        }
        Expr::Spread(array, dimension, extent) => {
            let array = rewrite_box(alloc, array, rule)?;
            Ok(Expr::Spread(array, *dimension, rewrite_box(alloc, extent, rule)?))
        }
        Expr::Transpose(array) => Ok(Expr::Transpose(rewrite_box(alloc, array, rule)?)),
        Expr::Reshape(array, extents) => {
            let array = rewrite_box(alloc, array, rule)?;
            Ok(Expr::Reshape(array, rewrite_all(alloc, extents, rule)?))
        }
        Expr::Reduce(reduction, array) => {
            Ok(Expr::Reduce(*reduction, rewrite_box(alloc, array, rule)?))
        }
    }
}

#[cycle(rewriting)]
fn rewrite_box<R: NodeRule>(alloc: Global, expr: &Expr, rule: &mut R) -> Result<Box<Expr>, Memory>
    ensures made { IfOk result (λ new. expression_of new.value ≡ made (R.making rule.old) (expression_of expr.now)) }
    ensures same { R.making rule.new ≡ R.making rule.old }
{
    let made = rewrite_expression(alloc, expr, rule)?;
    Ok(Box::new(alloc, made)?)
}

#[cycle(rewriting)]
fn rewrite_all<R: NodeRule>(
    alloc: Global,
    exprs: &Seq<Expr>,
    rule: &mut R,
) -> Result<Seq<Expr>, Memory>
    ensures made { IfOk result (λ new. expressions (map expression_of new)
        ≡ made_expressions (R.making rule.old) (expressions (map expression_of exprs.now))) }
    ensures same { R.making rule.new ≡ R.making rule.old }
{
    let mut made = Seq::new(alloc);
    for expr in exprs.as_slice() {
        made.push(rewrite_expression(alloc, expr, rule)?)?;
    }
    Ok(made)
}

#[cycle(rewriting)]
fn rewrite_turns<R: NodeRule>(
    alloc: Global,
    turns: &Seq<Turn>,
    rule: &mut R,
) -> Result<Seq<Turn>, Memory>
    ensures made { IfOk result (λ new. constructor_loops (map loop_of new)
        ≡ made_loops (R.making rule.old) (constructor_loops (map loop_of turns.now))) }
    ensures same { R.making rule.new ≡ R.making rule.old }
{
    let mut made = Seq::new(alloc);
    for turn in turns.as_slice() {
        made.push(rewrite_turn(alloc, turn, rule)?)?;
    }
    Ok(made)
}

#[cycle(rewriting)]
#[tactic(auto, using(tree::proofs::Equations::expression_equations))]
fn rewrite_turn<R: NodeRule>(alloc: Global, turn: &Turn, rule: &mut R) -> Result<Turn, Memory>
    ensures made { IfOk result (λ new. loop_of new ≡ made_loop (R.making rule.old) (loop_of turn.now)) }
    ensures same { R.making rule.new ≡ R.making rule.old }
{
    let first = rewrite_expression(alloc, &turn.first, rule);
    let last = rewrite_expression(alloc, &turn.last, rule);
    let (first, last) = both(first, last)?;
    Ok(Turn {
        var: turn.var,
        first,
        last,
    })
}

/// A reference with its subscripts rewritten, which keeps its name.
#[cycle(rewriting)]
#[tactic(auto, using(tree::proofs::Equations::expression_equations))]
pub fn rewrite_parts<R: NodeRule>(alloc: Global, item: &Ref, rule: &mut R) -> Result<Ref, Memory>
    ensures made { IfOk result (λ new. reference_of new ≡ made_parts (R.making rule.old) (reference_of item.now)) }
    ensures same { R.making rule.new ≡ R.making rule.old }
{
    let subs = rewrite_subscripts(alloc, &item.subs, rule)?;
    Ok(Ref {
        name: item.name,
        subs,
    })
}

#[cycle(rewriting)]
fn rewrite_subscripts<R: NodeRule>(
    alloc: Global,
    subs: &Seq<Sub>,
    rule: &mut R,
) -> Result<Seq<Sub>, Memory>
    ensures made { IfOk result (λ new. subscripts (map subscript_of new)
        ≡ made_subscripts (R.making rule.old) (subscripts (map subscript_of subs.now))) }
    ensures same { R.making rule.new ≡ R.making rule.old }
{
    let mut made = Seq::new(alloc);
    for sub in subs.as_slice() {
        made.push(rewrite_subscript(alloc, sub, rule)?)?;
    }
    Ok(made)
}

#[cycle(rewriting)]
#[tactic(auto, using(tree::proofs::Equations::expression_equations))]
fn rewrite_subscript<R: NodeRule>(alloc: Global, sub: &Sub, rule: &mut R) -> Result<Sub, Memory>
    ensures made { IfOk result (λ new. subscript_of new ≡ made_subscript (R.making rule.old) (subscript_of sub.now)) }
    ensures same { R.making rule.new ≡ R.making rule.old }
{
    match sub {
        Sub::One(expr) => Ok(Sub::One(rewrite_expression(alloc, expr, rule)?)),
        Sub::Part(lower, upper, stride) => {
            let lower = rewrite_expression(alloc, lower, rule);
            let upper = rewrite_expression(alloc, upper, rule);
            let stride = rewrite_expression(alloc, stride, rule);
            let (lower, upper, stride) = three(lower, upper, stride)?;
            Ok(Sub::Part(lower, upper, stride))
        }
    }
}
