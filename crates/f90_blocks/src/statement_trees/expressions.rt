//! The trees of several expressions, of left sides and of the parameters of loops.
ghost use Rattle.std.specs.Prelude.{◌≡◌, List, Option, IfOk, map};
ghost use Rattle.f90_grammar.specs.Items.{step_tree90};
ghost use Rattle.f90_grammar.specs.Phrases.{Phrase90};
ghost use Rattle.f90_expressions.specs.Reading.{IsMadeOf};
ghost use Rattle.f90_statement.specs.items.parts.Bounds.{IsStepOf, AreBoundsOf};
ghost use Rattle.f90_statement.specs.Views.{AreOf};
ghost use Rattle.f90_trees.specs.Building.{held};
ghost use Rattle.f90_trees.specs.Hiding.{function_in};
ghost use Rattle.f90_trees.specs.Trees.{IsOfPhrase};
ghost use Rattle.f90_blocks.specs.statement_trees.Results.{IsOf, AreOfSome, AreOfBounds, held_trees, AreBoundTrees};
ghost use Rattle.f90_blocks.specs.statement_trees.Results.{IsLeftOf, IsNamedBy};
ghost use Rattle.tree.specs.View.{expression_of};

use f90_expressions::Expression;
use f90_statement::items::parts::Bounds;
use f90_trees::{Functions, tree};
use std::alloc::Global;
use tree::{Expr, Memory, Ref, Seq};

/// The trees of the expressions, in order.
pub(crate) fn trees(
    alloc: Global,
    expressions: &[Expression],
    functions: &Functions,
) -> Result<Seq<Expr>, Memory>
    requires { AreOfSome IsMadeOf expressions.now }
    ensures { (ps : List Phrase90) → AreOf IsMadeOf expressions.now ps → IfOk result (λ made.
        map expression_of made ≡ held_trees (function_in functions.now) ps) }
{
    let mut made = Seq::new(alloc);
    'making: for expression in expressions {
        made.push(tree(alloc, expression, functions)?)?;
    }
    Ok(made)
}

// The reference that an expression is, if it is one.
#[tactic(auto, using(tree::proofs::Equations::expression_equations))]
fn named(expr: Expr) -> Option<Ref>
    ensures { IsNamedBy (expression_of expr) result }
{
    match expr {
        Expr::Item(item) => Some(item),
        Expr::Int(_) => None,
        Expr::Truth(_) => None,
        Expr::Un(_, _) => None,
        Expr::Bin(_, _, _) => None,
        Expr::Call(_, _) => None,
        Expr::List(_, _) => None,
        Expr::Spread(_, _, _) => None,
        Expr::Transpose(_) => None,
        Expr::Reshape(_, _) => None,
        Expr::Reduce(_, _) => None,
    }
}

/// What is stored into, unless it is a call.
pub(crate) fn left_side(
    alloc: Global,
    expression: &Expression,
    functions: &Functions,
) -> Result<Option<Ref>, Memory>
    requires { IsOfPhrase expression.now }
    ensures { (l : Phrase90) → IsMadeOf expression.now l → IfOk result (λ made.
        IsLeftOf (function_in functions.now) l made) }
{
    Ok(named(tree(alloc, expression, functions)?))
}

// The tree of a step, which is 1 where none is written.
fn step(alloc: Global, step: &Option<Expression>, functions: &Functions) -> Result<Expr, Memory>
    requires { IsOf IsStepOf step.now }
    ensures { (c : Option Phrase90) → IsStepOf step.now c → IfOk result (λ made.
        expression_of made ≡ held (step_tree90 (function_in functions.now) c)) }
{
    match step {
        Some(expression) => tree(alloc, expression, functions),
        None => Ok(Expr::Int(1)),
    }
}

/// The trees of the first value, the last one and the step of a loop.
pub(crate) fn parameters(
    alloc: Global,
    bounds: &Bounds,
    functions: &Functions,
) -> Result<(Expr, Expr, Expr), Memory>
    requires { AreOfBounds bounds.now }
    ensures { (a b : Phrase90) (c : Option Phrase90) → AreBoundsOf bounds.now a b c → IfOk result (λ made.
        AreBoundTrees (function_in functions.now) a b c made) }
{
    let first = tree(alloc, &bounds.first, functions)?;
    let last = tree(alloc, &bounds.last, functions)?;
    let step = step(alloc, &bounds.step, functions)?;
    Ok((first, last, step))
}
