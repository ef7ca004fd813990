//! The names that are functions where those that a text declares are none.
ghost use Rattle.std.specs.Prelude.{List, IfOk, OnOk};
ghost use Rattle.f90_grammar.specs.FreeForm.{FreeStatement};
ghost use Rattle.f90_trees.specs.Hiding.{function_in};
ghost use Rattle.f90_statement.specs.Views.{AreOf};
ghost use Rattle.f90_blocks.specs.places.forms.Forms.{IsFormIn};
ghost use Rattle.f90_names.specs.calls.Hiding.{Hides, HidesDeclared, declared_by, names_of};

use f90_statement::{Entity, Statement};
use f90_trees::Functions;
use std::alloc::Global;
use tree::Memory;

fn hide_names(functions: &mut Functions, entities: &[Entity]) -> Result<(), Memory>
    ensures { OnOk result (Hides (names_of entities.now) functions.old functions.new) }
{
    'hiding: for entity in entities {
        functions.hide(entity.name)?;
    }
    Ok(())
}

fn hide_declared(functions: &mut Functions, form: &Option<Statement>) -> Result<(), Memory>
    ensures { OnOk result (Hides (declared_by form.now) functions.old functions.new) }
{
    match form {
        Some(Statement::Declare(_, _, entities)) => hide_names(functions, entities.as_slice()),
        _ => Ok(()),
    }
}

/// The functions but for all names that the statements declare.
pub(crate) fn functions_of(alloc: Global, forms: &[Option<Statement>]) -> Result<Functions, Memory>
    ensures { (ss : List FreeStatement) → AreOf IsFormIn forms.now ss
        → IfOk result (λ functions. HidesDeclared ss (function_in functions)) }
{
    let mut functions = Functions::new(alloc);
    'hiding: for form in forms {
        hide_declared(&mut functions, form)?;
    }
    Ok(functions)
}
