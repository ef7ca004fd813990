//! The trees of expressions, and whether their calls have arguments that may stand there.
ghost use Rattle.std.specs.Prelude.{◌≡◌};
ghost use Rattle.f90_grammar.specs.Phrases.{Phrase90};
ghost use Rattle.f90_expressions.specs.Reading.{IsMadeOf};
ghost use Rattle.f90_expressions.specs.Views.{node_seen};
ghost use Rattle.f90_trees.specs.Trees.{IsOfPhrase, TellsCallsOf, TellsCallsIn, IsTreeOf, is_list};

use crate::building::made;
use crate::calls::suit;
use crate::functions::Functions;
use f90_expressions::{Expression, Node};
use std::alloc::Global;
use tree::{Expr, Memory};

fn is_list(node: &Node) -> bool
    ensures { result ≡ is_list (node_seen node.now) }
{
    match node {
        Node::Listed(_) => true,
        Node::Digits(_) => false,
        Node::Truth(_) => false,
        Node::Name(_) => false,
        Node::Parenthesis => false,
        Node::Prefix(_) => false,
        Node::Infix(_) => false,
        Node::One => false,
        Node::Bounds => false,
        Node::Stride => false,
        Node::Begin => false,
        Node::Values => false,
        Node::Inner(_) => false,
        Node::Outer(_) => false,
        Node::Looped => false,
    }
}

/// Whether each call in an expression has arguments that may stand there.
#[tactic(auto, using(crate::proofs::TreeLaws::slices))]
pub fn suits_calls(
    alloc: Global,
    expression: &Expression,
    functions: &Functions,
) -> Result<bool, Memory>
    ensures { (p : Phrase90) → IsMadeOf expression.now p → TellsCallsOf result functions.now p }
{
    suit(alloc, expression.nodes.as_slice(), functions)
}

/// The same of what is stored into: its own name calls nothing.
#[tactic(auto, using(crate::proofs::TreeLaws::slices))]
pub fn variable_suits_calls(
    alloc: Global,
    variable: &Expression,
    functions: &Functions,
) -> Result<bool, Memory>
    ensures { (p : Phrase90) → IsMadeOf variable.now p → TellsCallsIn result functions.now p }
{
    let Some((last, parts)) = variable.nodes.as_slice().split_last() else {
        return Ok(true);
    };
    if !is_list(last) {
        return Ok(true);
    }
    suit(alloc, parts, functions)
}

/// The tree of an expression. It is as deep as the expression, and what drops it goes as deep: look first whether the
/// expression is too deep.
///
/// A literal above the greatest is held as that one, and a dimension of SPREAD above 2^64-1 as that number.
#[tactic(auto, using(crate::proofs::TreeLaws::slices))]
pub fn tree(alloc: Global, expression: &Expression, functions: &Functions) -> Result<Expr, Memory>
    requires { IsOfPhrase expression.now }
    ensures { (p : Phrase90) → IsMadeOf expression.now p → IsTreeOf result functions.now p }
{
    let Some(expr) = made(alloc, expression.nodes.as_slice(), functions)? else {
        unreachable!();
    };
    Ok(expr)
}
