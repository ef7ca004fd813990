//! Statements whose kinds and ranks don't suit (ISO/IEC 1539:1991, sections 6.3, 7.5, 8.1 and 9.4).
ghost use Rattle.std.specs.Prelude.{◌≡◌, ◌↔◌, None, List, IsTrue, IfOk};
ghost use Rattle.tree.specs.Plain.{Declaration};
ghost use Rattle.tree.specs.View.{statement_of};
ghost use Rattle.f90_grammar.specs.Blocks as grammar;
ghost use Rattle.f90_grammar.specs.Suited.{Suits};
ghost use Rattle.f90_names.specs.kinds.declarations.Names.{AreNamesOf};
ghost use Rattle.f90_blocks.specs.places.forms.Places.{IsPlacedOf};
ghost use Rattle.f90_blocks.specs.places.First.{FindsFirst};
ghost use Rattle.f90_statement.specs.Views.{AreOf};
ghost use Rattle.f90_blocks.specs.statement_trees.Results.{IsOf, AreOfSome};
ghost use Rattle.f90_read.specs.f90_suits.Suited.{SuitsStatement, SuitsDone, SuitsTree};
ghost use Rattle.f90_read.specs.f90_suits.Ready.{AreFunctionsOf, IsReadyAt, AreReady, HoldsOfAll};

use crate::f90_suits::executable::is_executable;
use f90_blocks::places::forms::Placed;
use f90_blocks::statement_trees::{StatementTree, statement_tree};
use f90_names::kinds::declarations::Names;
use f90_names::kinds::{
    are_numbers, is_condition, suits_allocation, suits_assignment, suits_deallocation, suits_input,
    suits_masked, suits_output,
};
use f90_trees::Functions;
use std::alloc::Global;
use tree::{Memory, Stmt};

// Whether a statement without others in it suits.
#[tactic(auto, using(tree::proofs::Equations::statement_equations))]
fn suits_statement(stmt: &Stmt, names: &Names) -> bool
    ensures { (ds : List Declaration) → AreNamesOf names.now ds → IsTrue result
        ↔ SuitsStatement ds (statement_of stmt.now) }
{
    match stmt {
        Stmt::Assign { left, right, .. } => suits_assignment(left, right, names),
        Stmt::Masked {
            mask,
            left,
            right,
            ..
        } => suits_masked(mask, left, right, names),
        Stmt::Read { items, .. } => suits_input(items, names),
        Stmt::Print { items, .. } => suits_output(items, names),
        Stmt::Allocate { name, extents, .. } => suits_allocation(*name, extents, names),
        Stmt::Deallocate { name, .. } => suits_deallocation(*name, names),
        Stmt::If { .. } => true,
        Stmt::Do { .. } => true,
        Stmt::Label { .. } => true,
        Stmt::Go { .. } => true,
        Stmt::Stop { .. } => true,
    }
}

// Whether what a logical IF does suits.
fn suits_done(done: &Option<Stmt>, names: &Names) -> bool
    ensures { (ds : List Declaration) → AreNamesOf names.now ds → IsTrue result ↔ SuitsDone ds done.now }
{
    match done {
        Some(stmt) => suits_statement(stmt, names),
        None => true,
    }
}

// Whether the tree of a statement suits.
fn suits_tree(tree: &StatementTree, names: &Names) -> bool
    ensures { (ds : List Declaration) → AreNamesOf names.now ds → IsTrue result ↔ SuitsTree ds tree.now }
{
    match tree {
        StatementTree::Simple(stmt) => suits_statement(stmt, names),
        StatementTree::Test(test, done) => is_condition(test, names) && suits_done(done, names),
        StatementTree::If(test) => is_condition(test, names),
        StatementTree::ElseIf(test) => is_condition(test, names),
        StatementTree::Do(_, first, last, step) => are_numbers(first, last, step, names),
        StatementTree::Else => true,
        StatementTree::EndIf => true,
        StatementTree::EndDo => true,
        StatementTree::Continue(_) => true,
    }
}

// Whether a statement suits: one that stores into a call doesn't.
fn is_suited(
    alloc: Global,
    placed: &Placed,
    functions: &Functions,
    names: &Names,
) -> Result<bool, Memory>
    requires { IsOf IsPlacedOf placed.now }
    ensures { (p : grammar.Placed) (ds : List Declaration) → IsPlacedOf placed.now p → AreNamesOf names.now ds
        → AreFunctionsOf functions.now ds → IsReadyAt ds p
        → IfOk result (λ suited. IsTrue suited ↔ Suits ds p.form) }
{
    match statement_tree(alloc, placed, functions)? {
        Some(tree) => {
            let suited = suits_tree(&tree, names);
            drop(tree);
            Ok(suited)
        }
        None => Ok(!is_executable(&placed.statement)),
    }
}

/// How many statements stand before the first whose kinds or ranks don't suit, if one has such.
pub fn first_unsuited(
    alloc: Global,
    text: &[Placed],
    functions: &Functions,
    names: &Names,
) -> Result<Option<usize>, Memory>
    requires { AreOfSome IsPlacedOf text.now }
    ensures first { (ps : List grammar.Placed) (ds : List Declaration) → AreOf IsPlacedOf text.now ps
        → AreNamesOf names.now ds → AreReady functions.now ds ps
        → IfOk result (λ found. FindsFirst ps (λ p. Suits ds p.here.form → ⊥) found) }
    ensures all { (ps : List grammar.Placed) (ds : List Declaration) → AreOf IsPlacedOf text.now ps
        → AreNamesOf names.now ds → AreReady functions.now ds ps
        → IfOk result (λ found. found ≡ None → HoldsOfAll (Suits ds) ps) }
{
    for (place, placed) in text.iter().enumerate() {
        if !is_suited(alloc, placed, functions, names)? {
            return Ok(Some(place));
        }
    }
    Ok(None)
}
