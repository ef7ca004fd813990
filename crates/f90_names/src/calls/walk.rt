//! Whether each call in a statement has arguments that may stand there.
ghost use Rattle.std.specs.Prelude.{List, Option, ◌∷◌};
ghost use Rattle.std.specs.List.{AllByRecursion};
ghost use Rattle.f90_grammar.specs.Contents.{SuitsCallsIn, step_expressions};
ghost use Rattle.f90_grammar.specs.Forms.{Form90};
ghost use Rattle.f90_grammar.specs.Items.{ItemPhrases90};
ghost use Rattle.f90_grammar.specs.Phrases.{Phrase90, SuitsCalls};
ghost use Rattle.f90_expressions.specs.Reading.{IsMadeOf};
ghost use Rattle.f90_statement.specs.items.parts.Bounds.{AreBoundsOf};
ghost use Rattle.f90_statement.specs.items.Flat as flats;
ghost use Rattle.f90_statement.specs.items.Reading.{IsListOf};
ghost use Rattle.f90_statement.specs.items.Views.{IsNodeOf, AreNodesOf};
ghost use Rattle.f90_statement.specs.Views.{AreOf, IsActionOf, IsStatementOf};
ghost use Rattle.f90_trees.specs.Hiding.{function_in};
ghost use Rattle.f90_names.specs.calls.Calls.{Tells, NodeSuits, ListSuits, AssignmentSuits};

use f90_expressions::Expression;
use f90_statement::items::parts::Bounds;
use f90_statement::items::{Direction, ItemList, Node};
use f90_statement::{Action, Statement};
use f90_trees::{Functions, suits_calls, variable_suits_calls};
use std::alloc::Global;
use tree::Memory;

fn all_suit(
    alloc: Global,
    expressions: &[Expression],
    functions: &Functions,
) -> Result<bool, Memory>
    ensures { (ps : List Phrase90) → AreOf IsMadeOf expressions.now ps
        → Tells result (AllByRecursion (SuitsCalls (function_in functions.now)) ps) }
{
    for expression in expressions {
        if !suits_calls(alloc, expression, functions)? {
            return Ok(false);
        }
    }
    Ok(true)
}

// The parameters of a loop.
fn bounds_suit(alloc: Global, bounds: &Bounds, functions: &Functions) -> Result<bool, Memory>
    ensures { (a b : Phrase90) (c : Option Phrase90) → AreBoundsOf bounds.now a b c
        → Tells result (AllByRecursion (SuitsCalls (function_in functions.now)) (a ∷ (b ∷ step_expressions c))) }
{
    if !suits_calls(alloc, &bounds.first, functions)? {
        return Ok(false);
    }
    if !suits_calls(alloc, &bounds.last, functions)? {
        return Ok(false);
    }
    match &bounds.step {
        Some(step) => suits_calls(alloc, step, functions),
        None => Ok(true),
    }
}

// ---- lists of READ and PRINT

fn value_suits(
    alloc: Global,
    direction: Direction,
    value: &Expression,
    functions: &Functions,
) -> Result<bool, Memory>
    ensures { (p : Phrase90) → IsMadeOf value.now p
        → Tells result (NodeSuits (function_in functions.now) direction (flats.Of p)) }
{
    match direction {
        Direction::Input => variable_suits_calls(alloc, value, functions),
        Direction::Output => suits_calls(alloc, value, functions),
    }
}

fn node_suits(
    alloc: Global,
    direction: Direction,
    node: &Node,
    functions: &Functions,
) -> Result<bool, Memory>
    ensures { (part : flats.Node) → IsNodeOf node.now part
        → Tells result (NodeSuits (function_in functions.now) direction part) }
{
    match node {
        Node::Value(value) => value_suits(alloc, direction, value, functions),
        Node::Text(_) => Ok(true),
        Node::Begin => Ok(true),
        Node::Turns(_, bounds) => bounds_suit(alloc, bounds, functions),
    }
}

fn nodes_suit(
    alloc: Global,
    direction: Direction,
    nodes: &[Node],
    functions: &Functions,
) -> Result<bool, Memory>
    ensures { (parts : List flats.Node) → AreNodesOf nodes.now parts
        → Tells result (AllByRecursion (NodeSuits (function_in functions.now) direction) parts) }
{
    for node in nodes {
        if !node_suits(alloc, direction, node, functions)? {
            return Ok(false);
        }
    }
    Ok(true)
}

fn list_suits(
    alloc: Global,
    direction: Direction,
    list: &ItemList,
    functions: &Functions,
) -> Result<bool, Memory>
    ensures { (is : ItemPhrases90) → IsListOf list.now is
        → Tells result (ListSuits (function_in functions.now) direction is) }
{
    nodes_suit(alloc, direction, list.nodes.as_slice(), functions)
}

// ---- statements

fn assignment_suits(
    alloc: Global,
    left: &Expression,
    right: &Expression,
    functions: &Functions,
) -> Result<bool, Memory>
    ensures { (l r : Phrase90) → IsMadeOf left.now l → IsMadeOf right.now r
        → Tells result (AssignmentSuits (function_in functions.now) l r) }
{
    if !suits_calls(alloc, right, functions)? {
        return Ok(false);
    }
    variable_suits_calls(alloc, left, functions)
}

fn action_suits(alloc: Global, action: &Action, functions: &Functions) -> Result<bool, Memory>
    ensures { (f : Form90) → IsActionOf action.now f → Tells result (SuitsCallsIn (function_in functions.now) f) }
{
    match action {
        Action::Assign(left, right) => assignment_suits(alloc, left, right, functions),
        Action::Read(Some(list)) => list_suits(alloc, Direction::Input, list, functions),
        Action::Print(Some(list)) => list_suits(alloc, Direction::Output, list, functions),
        Action::Read(None) => Ok(true),
        Action::Print(None) => Ok(true),
        Action::Go(_) => Ok(true),
        Action::Continue => Ok(true),
        Action::Stop => Ok(true),
    }
}

// An assignment that a mask governs.
fn masked_suits(
    alloc: Global,
    mask: &Expression,
    left: &Expression,
    right: &Expression,
    functions: &Functions,
) -> Result<bool, Memory>
    ensures { (m l r : Phrase90) → IsMadeOf mask.now m → IsMadeOf left.now l → IsMadeOf right.now r
        → Tells result (SuitsCalls (function_in functions.now) m × AssignmentSuits (function_in functions.now) l r) }
{
    if !suits_calls(alloc, mask, functions)? {
        return Ok(false);
    }
    assignment_suits(alloc, left, right, functions)
}

// A logical IF.
fn test_suits(
    alloc: Global,
    condition: &Expression,
    action: &Action,
    functions: &Functions,
) -> Result<bool, Memory>
    ensures { (p : Phrase90) (f : Form90) → IsMadeOf condition.now p → IsActionOf action.now f
        → Tells result (SuitsCalls (function_in functions.now) p × SuitsCallsIn (function_in functions.now) f) }
{
    if !suits_calls(alloc, condition, functions)? {
        return Ok(false);
    }
    action_suits(alloc, action, functions)
}

/// Whether each call in the statement has arguments that may stand there.
pub(crate) fn statement_suits(
    alloc: Global,
    statement: &Statement,
    functions: &Functions,
) -> Result<bool, Memory>
    ensures { (f : Form90) → IsStatementOf statement.now f → Tells result (SuitsCallsIn (function_in functions.now) f) }
{
    match statement {
        Statement::Act(action) => action_suits(alloc, action, functions),
        Statement::Where(mask, left, right) => masked_suits(alloc, mask, left, right, functions),
        Statement::Test(condition, action) => test_suits(alloc, condition, action, functions),
        Statement::If(condition) => suits_calls(alloc, condition, functions),
        Statement::ElseIf(condition) => suits_calls(alloc, condition, functions),
        Statement::Do(_, bounds) => bounds_suit(alloc, bounds, functions),
        Statement::Allocate(_, extents) => all_suit(alloc, extents.as_slice(), functions),
        Statement::Program(_) => Ok(true),
        Statement::ImplicitNone => Ok(true),
        Statement::Declare(_, _, _) => Ok(true),
        Statement::Label(_) => Ok(true),
        Statement::Else => Ok(true),
        Statement::EndIf => Ok(true),
        Statement::EndDo => Ok(true),
        Statement::Deallocate(_) => Ok(true),
        Statement::End => Ok(true),
        Statement::EndProgram(_) => Ok(true),
    }
}
