//! Statements with their trees.
ghost use Rattle.std.specs.Prelude.{◌≡◌, List, Option, IfOk, IfSome, None};
ghost use Rattle.f90_grammar.specs.Blocks as grammar;
ghost use Rattle.f90_grammar.specs.Blocks.{placed_form};
ghost use Rattle.f90_grammar.specs.Forms as forms;
ghost use Rattle.f90_grammar.specs.Forms.{Form90};
ghost use Rattle.f90_grammar.specs.Phrases.{Phrase90};
ghost use Rattle.f90_expressions.specs.Reading.{IsMadeOf};
ghost use Rattle.f90_blocks.specs.places.forms.Places.{IsPlacedOf};
ghost use Rattle.f90_statement.specs.Views.{AreOf, IsActionOf, IsStatementOf};
ghost use Rattle.f90_trees.specs.Hiding.{function_in};
ghost use Rattle.f90_trees.specs.Trees.{IsOfPhrase};
ghost use Rattle.f90_blocks.specs.statement_trees.Executable.{IsMarkOf, IsMarked};
ghost use Rattle.f90_blocks.specs.statement_trees.Held.{IsHeldForm};
ghost use Rattle.f90_blocks.specs.statement_trees.Results.{IsOf, AreOfSome, IsOfList, IsListed, IsDeedOf, IsAlone};
ghost use Rattle.f90_blocks.specs.statement_trees.Results.{IsTested, Gives};
ghost use Rattle.f90_blocks.specs.statement_trees.Trees.{IsTreeOf};

use crate::places::forms::Placed;
use crate::statement_trees::expressions::{left_side, parameters, trees};
use crate::statement_trees::items::trees_of_items;
use crate::statement_trees::nodes::StatementTree;
use f90_expressions::Expression;
use f90_statement::items::ItemList;
use f90_statement::{Action, Statement};
use f90_trees::{Functions, tree};
use std::alloc::Global;
use tree::{Expr, Item, Mark, Memory, Name, Seq, Stmt};

// What an action does, nothing where it is CONTINUE; or it stores into a call.
#[derive(Drop)]
pub(crate) enum Deed {
    Does(Option<Stmt>),
    IsCall,
}

// An assignment, unless it stores into a call.
fn assignment(
    alloc: Global,
    line: u32,
    mark: Option<Mark>,
    variable: &Expression,
    value: &Expression,
    functions: &Functions,
) -> Result<Deed, Memory>
    requires variable { IsOfPhrase variable.now }
    requires value { IsOfPhrase value.now }
    ensures { (l r : Phrase90) → IsMadeOf variable.now l → IsMadeOf value.now r → IfOk result (λ deed.
        IsDeedOf (function_in functions.now) (placed_form line mark (forms.Assign l r)) deed) }
{
    let Some(left) = left_side(alloc, variable, functions)? else {
        return Ok(Deed::IsCall);
    };
    let right = tree(alloc, value, functions)?;
    Ok(Deed::Does(Some(Stmt::Assign {
        line,
        mark,
        left,
        right,
    })))
}

// A WHERE, unless it stores into a call.
fn masked(
    alloc: Global,
    line: u32,
    mark: Option<Mark>,
    mask: &Expression,
    variable: &Expression,
    value: &Expression,
    functions: &Functions,
) -> Result<Option<StatementTree>, Memory>
    requires mask { IsOfPhrase mask.now }
    requires variable { IsOfPhrase variable.now }
    requires value { IsOfPhrase value.now }
    ensures { (p l r : Phrase90) → IsMadeOf mask.now p → IsMadeOf variable.now l → IsMadeOf value.now r
        → IfOk result (λ made. Gives (function_in functions.now) (placed_form line mark (forms.Where p l r)) made) }
{
    let Some(left) = left_side(alloc, variable, functions)? else {
        return Ok(None);
    };
    let mask = tree(alloc, mask, functions)?;
    let right = tree(alloc, value, functions)?;
    Ok(Some(StatementTree::Simple(Stmt::Masked {
        line,
        mark,
        mask,
        left,
        right,
    })))
}

// The items of a list, none where there is no list.
fn listed(
    alloc: Global,
    list: &Option<ItemList>,
    functions: &Functions,
) -> Result<Seq<Item>, Memory>
    requires { IsOfList list.now }
    ensures { IfOk result (λ made. IsListed (function_in functions.now) list.now made) }
{
    match list {
        Some(list) => trees_of_items(alloc, list, functions),
        None => Ok(Seq::new(alloc)),
    }
}

// An ALLOCATE.
fn allocate(
    alloc: Global,
    line: u32,
    name: Name,
    extents: &[Expression],
    functions: &Functions,
) -> Result<Option<StatementTree>, Memory>
    requires { AreOfSome IsMadeOf extents.now }
    ensures { (es : List Phrase90) → AreOf IsMadeOf extents.now es → (m : Option Mark) → m ≡ None → IfOk result (λ made.
        Gives (function_in functions.now) (placed_form line m (forms.Allocate name es)) made) }
{
    let extents = trees(alloc, extents, functions)?;
    Ok(Some(StatementTree::Simple(Stmt::Allocate {
        line,
        name,
        extents,
    })))
}

// An action of a statement.
fn act(
    alloc: Global,
    line: u32,
    mark: Option<Mark>,
    action: &Action,
    functions: &Functions,
) -> Result<Deed, Memory>
    requires { IsOf IsActionOf action.now }
    ensures { (f : Form90) → IsActionOf action.now f → IsMarkOf mark f → IfOk result (λ deed.
        IsDeedOf (function_in functions.now) (placed_form line mark f) deed) }
{
    match action {
        Action::Assign(variable, value) => {
            assignment(alloc, line, mark, variable, value, functions)
        }
        Action::Go(number) => Ok(Deed::Does(Some(Stmt::Go {
            line,
            number: *number,
        }))),
        Action::Continue => Ok(Deed::Does(None)),
        Action::Stop => Ok(Deed::Does(Some(Stmt::Stop { line }))),
        Action::Read(list) => {
            let items = listed(alloc, list, functions)?;
            Ok(Deed::Does(Some(Stmt::Read { line, items })))
        }
        Action::Print(list) => {
            let items = listed(alloc, list, functions)?;
            Ok(Deed::Does(Some(Stmt::Print { line, items })))
        }
    }
}

// An action as a statement of its own.
fn alone(deed: Deed) -> Option<StatementTree>
    ensures { IsAlone deed result }
{
    match deed {
        Deed::Does(Some(stmt)) => Some(StatementTree::Simple(stmt)),
        Deed::Does(None) => Some(StatementTree::Continue(None)),
        Deed::IsCall => None,
    }
}

// An action in a logical IF.
fn tested(test: Expr, deed: Deed) -> Option<StatementTree>
    ensures { IsTested test deed result }
{
    match deed {
        Deed::Does(stmt) => Some(StatementTree::Test(test, stmt)),
        Deed::IsCall => None,
    }
}

// The tree of a statement, if it has one.
fn tree_at(
    alloc: Global,
    line: u32,
    mark: Option<Mark>,
    statement: &Statement,
    functions: &Functions,
) -> Result<Option<StatementTree>, Memory>
    requires { IsOf IsStatementOf statement.now }
    ensures { (f : Form90) → IsStatementOf statement.now f → IsMarkOf mark f → IfOk result (λ made.
        Gives (function_in functions.now) (placed_form line mark f) made) }
{
    match statement {
        Statement::Act(action) => Ok(alone(act(alloc, line, mark, action, functions)?)),
        Statement::Test(test, action) => {
            let test = tree(alloc, test, functions)?;
            Ok(tested(test, act(alloc, line, mark, action, functions)?))
        }
        Statement::Where(mask, variable, value) => {
            masked(alloc, line, mark, mask, variable, value, functions)
        }
        Statement::Label(number) => Ok(Some(StatementTree::Continue(Some(*number)))),
        Statement::If(test) => Ok(Some(StatementTree::If(tree(alloc, test, functions)?))),
        Statement::ElseIf(test) => Ok(Some(StatementTree::ElseIf(tree(alloc, test, functions)?))),
        Statement::Else => Ok(Some(StatementTree::Else)),
        Statement::EndIf => Ok(Some(StatementTree::EndIf)),
        Statement::Do(var, bounds) => {
            let (first, last, step) = parameters(alloc, bounds, functions)?;
            Ok(Some(StatementTree::Do(*var, first, last, step)))
        }
        Statement::EndDo => Ok(Some(StatementTree::EndDo)),
        Statement::Allocate(name, extents) => {
            allocate(alloc, line, *name, extents.as_slice(), functions)
        }
        Statement::Deallocate(name) => {
            Ok(Some(StatementTree::Simple(Stmt::Deallocate { line, name: *name })))
        }
        Statement::Program(_) => Ok(None),
        Statement::ImplicitNone => Ok(None),
        Statement::Declare(_, _, _) => Ok(None),
        Statement::End => Ok(None),
        Statement::EndProgram(_) => Ok(None),
    }
}

/// The tree of a statement, none where it isn't executable or stores into a call. It is as deep as the deepest
/// expression, and what drops it goes as deep: look first whether an expression is too deep.
///
/// A literal above the greatest is held as that one, and a dimension of SPREAD above 2^64-1 as that number.
pub fn statement_tree(
    alloc: Global,
    placed: &Placed,
    functions: &Functions,
) -> Result<Option<StatementTree>, Memory>
    requires { IsOf IsPlacedOf placed.now }
    ensures found { (p : grammar.Placed) → IsPlacedOf placed.now p → IsMarked p → IfOk result (λ made.
        Gives (function_in functions.now) p made) }
    // Where nothing is cut, it is the very tree.
    ensures whole { (p : grammar.Placed) → IsPlacedOf placed.now p → IsMarked p
        → IsHeldForm (function_in functions.now) p.form → IfOk result (λ made. IfSome made (λ tree.
        IsTreeOf (function_in functions.now) p tree)) }
{
    tree_at(
        alloc,
        placed.line,
        placed.mark,
        &placed.statement,
        functions,
    )
}
