//! The program that statements are.
ghost use Rattle.std.specs.Prelude.{◌≡◌, Some, ℕ, List, IfOk, OnOk};
ghost use Rattle.tree.specs.View.{program_of_90};
ghost use Rattle.f90_blocks.specs.statement_trees.Results.{AreOfSome};
ghost use Rattle.f90_grammar.specs.Blocks as grammar;
ghost use Rattle.f90_grammar.specs.Forms.{Form90};
ghost use Rattle.f90_grammar.specs.Order.{name_in, title_in_text};
ghost use Rattle.f90_grammar.specs.Programs.{IsProgramOf};
ghost use Rattle.f90_blocks.specs.places.forms.Places.{IsPlacedOf};
ghost use Rattle.f90_statement.specs.Views.{AreOf, IsStatementOf};
ghost use Rattle.f90_read.specs.Checks.{IsTextOf, IsClearBelow, AreFunctionsOf};
ghost use Rattle.f90_names.specs.calls.Hiding.{Hides, declared_by, names_of};

use crate::f90_suits::trees;
use f90_blocks::block;
use f90_blocks::places::forms::Placed;
use f90_names::kinds::declarations::declarations;
use f90_statement::{Entity, Statement};
use f90_trees::Functions;
use std::alloc::Global;
use tree::{Memory, Name, Program90};

fn hide_names(functions: &mut Functions, entities: &[Entity]) -> Result<(), Memory>
    ensures { OnOk result (Hides (names_of entities.now) functions.old functions.new) }
{
    'hiding: for entity in entities {
        functions.hide(entity.name)?;
    }
    Ok(())
}

fn hide_declared(functions: &mut Functions, statement: &Statement) -> Result<(), Memory>
    ensures { OnOk result (Hides (declared_by (Some statement.now)) functions.old functions.new) }
{
    match statement {
        Statement::Declare(_, _, entities) => hide_names(functions, entities.as_slice()),
        _ => Ok(()),
    }
}

/// The functions but for all names that the statements declare.
pub(crate) fn functions_of(alloc: Global, text: &[Placed]) -> Result<Functions, Memory>
    ensures { (ps : List grammar.Placed) → AreOf IsPlacedOf text.now ps → IfOk result (AreFunctionsOf ps) }
{
    let mut functions = Functions::new(alloc);
    'hiding: for placed in text {
        hide_declared(&mut functions, &placed.statement)?;
    }
    Ok(functions)
}

fn name_in(statement: &Statement) -> Option<Name>
    ensures { (f : Form90) → IsStatementOf statement.now f → result ≡ name_in f }
{
    match statement {
        Statement::Program(name) => Some(*name),
        _ => None,
    }
}

fn title(text: &[Placed]) -> Option<Name>
    ensures { (ps : List grammar.Placed) → AreOf IsPlacedOf text.now ps → result ≡ title_in_text ps }
{
    match text.first() {
        Some(placed) => name_in(&placed.statement),
        None => None,
    }
}

/// The program that the statements are, where no cause of refusal holds.
pub(crate) fn program(
    alloc: Global,
    text: &[Placed],
    functions: &Functions,
) -> Result<Program90, Memory>
    requires { AreOfSome IsPlacedOf text.now }
    ensures { (source : List ℕ) (ps : List grammar.Placed) → IsTextOf source ps text.now
        → AreFunctionsOf ps functions.now → IsClearBelow source 41
        → IfOk result (λ made. IsProgramOf ps (program_of_90 made)) }
{
    let decls = declarations(alloc, text)?;
    let body = block(alloc, trees(alloc, text, functions)?)?;
    let name = title(text);
    Ok(Program90 { name, decls, body })
}
