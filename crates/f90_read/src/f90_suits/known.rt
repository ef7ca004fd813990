//! Statements with names that aren't declared (ISO/IEC 1539:1991, sections 5, 6.2 and 12.5.2).
ghost use Rattle.std.specs.Prelude.{◌≡◌, ◌↔◌, None, List, IsTrue, IfOk};
ghost use Rattle.tree.specs.Plain.{Declaration};
ghost use Rattle.tree.specs.View.{statement_of};
ghost use Rattle.f90_grammar.specs.Blocks as grammar;
ghost use Rattle.f90_grammar.specs.Declared.{HasKnownNames};
ghost use Rattle.f90_names.specs.kinds.declarations.Names.{AreNamesOf};
ghost use Rattle.f90_blocks.specs.places.forms.Places.{IsPlacedOf};
ghost use Rattle.f90_blocks.specs.places.First.{FindsFirst};
ghost use Rattle.f90_statement.specs.Views.{AreOf};
ghost use Rattle.f90_blocks.specs.statement_trees.Results.{IsOf, AreOfSome};
ghost use Rattle.f90_read.specs.f90_suits.Known.{KnowsStatement, KnowsDone, KnowsTree};
ghost use Rattle.f90_read.specs.f90_suits.Ready.{AreFunctionsOf, IsReadyAt, AreReady, HoldsOfAll};

use crate::f90_suits::executable::is_executable;
use f90_blocks::places::forms::Placed;
use f90_blocks::statement_trees::{StatementTree, statement_tree};
use f90_names::kinds::declarations::Names;
use f90_names::kinds::{
    all_know_names, input_knows_names, is_declared, knows_names, output_knows_names,
    reference_knows_names,
};
use f90_trees::Functions;
use std::alloc::Global;
use tree::{Memory, Stmt};

// Whether the names in a statement without others in it are known.
#[tactic(auto, using(tree::proofs::Equations::statement_equations))]
fn knows_statement(stmt: &Stmt, names: &Names) -> bool
    ensures { (ds : List Declaration) → AreNamesOf names.now ds → IsTrue result
        ↔ KnowsStatement ds (statement_of stmt.now) }
{
    match stmt {
        Stmt::Assign { left, right, .. } => {
            reference_knows_names(left, names) && knows_names(right, names)
        }
        Stmt::Masked {
            mask,
            left,
            right,
            ..
        } => {
            knows_names(mask, names)
                && reference_knows_names(left, names)
                && knows_names(right, names)
        }
        Stmt::Read { items, .. } => input_knows_names(items, names),
        Stmt::Print { items, .. } => output_knows_names(items, names),
        Stmt::Allocate { name, extents, .. } => {
            is_declared(*name, names) && all_know_names(extents, names)
        }
        Stmt::Deallocate { name, .. } => is_declared(*name, names),
        Stmt::If { .. } => true,
        Stmt::Do { .. } => true,
        Stmt::Label { .. } => true,
        Stmt::Go { .. } => true,
        Stmt::Stop { .. } => true,
    }
}

// The same of what a logical IF does.
fn knows_done(done: &Option<Stmt>, names: &Names) -> bool
    ensures { (ds : List Declaration) → AreNamesOf names.now ds → IsTrue result ↔ KnowsDone ds done.now }
{
    match done {
        Some(stmt) => knows_statement(stmt, names),
        None => true,
    }
}

// Whether the names in the tree of a statement are known.
fn knows_tree(tree: &StatementTree, names: &Names) -> bool
    ensures { (ds : List Declaration) → AreNamesOf names.now ds → IsTrue result ↔ KnowsTree ds tree.now }
{
    match tree {
        StatementTree::Simple(stmt) => knows_statement(stmt, names),
        StatementTree::Test(test, done) => knows_names(test, names) && knows_done(done, names),
        StatementTree::If(test) => knows_names(test, names),
        StatementTree::ElseIf(test) => knows_names(test, names),
        StatementTree::Do(_, first, last, step) => {
            knows_names(first, names) && knows_names(last, names) && knows_names(step, names)
        }
        StatementTree::Else => true,
        StatementTree::EndIf => true,
        StatementTree::EndDo => true,
        StatementTree::Continue(_) => true,
    }
}

// Whether the names in a statement are known: one that stores into a call has none of them as a variable.
fn is_known(
    alloc: Global,
    placed: &Placed,
    functions: &Functions,
    names: &Names,
) -> Result<bool, Memory>
    requires { IsOf IsPlacedOf placed.now }
    ensures { (p : grammar.Placed) (ds : List Declaration) → IsPlacedOf placed.now p → AreNamesOf names.now ds
        → AreFunctionsOf functions.now ds → IsReadyAt ds p
        → IfOk result (λ known. IsTrue known ↔ HasKnownNames ds p.form) }
{
    match statement_tree(alloc, placed, functions)? {
        Some(tree) => {
            let known = knows_tree(&tree, names);
            drop(tree);
            Ok(known)
        }
        None => Ok(!is_executable(&placed.statement)),
    }
}

/// How many statements stand before the first that has a name which isn't declared, or which has another number of
/// subscripts than dimensions, if one has.
pub fn first_unknown(
    alloc: Global,
    text: &[Placed],
    functions: &Functions,
    names: &Names,
) -> Result<Option<usize>, Memory>
    requires { AreOfSome IsPlacedOf text.now }
    ensures first { (ps : List grammar.Placed) (ds : List Declaration) → AreOf IsPlacedOf text.now ps
        → AreNamesOf names.now ds → AreReady functions.now ds ps
        → IfOk result (λ found. FindsFirst ps (λ p. HasKnownNames ds p.here.form → ⊥) found) }
    ensures all { (ps : List grammar.Placed) (ds : List Declaration) → AreOf IsPlacedOf text.now ps
        → AreNamesOf names.now ds → AreReady functions.now ds ps
        → IfOk result (λ found. found ≡ None → HoldsOfAll (HasKnownNames ds) ps) }
{
    for (place, placed) in text.iter().enumerate() {
        if !is_known(alloc, placed, functions, names)? {
            return Ok(Some(place));
        }
    }
    Ok(None)
}
