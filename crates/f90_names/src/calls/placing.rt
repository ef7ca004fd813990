//! The statements of a text with their lines and marks.
ghost use Rattle.std.specs.Prelude.{◌≡◌, ◌⊎◌, ℕ, List, Contains, IfOk, IsOkAnd};
ghost use Rattle.std.specs.Str.Lines.{lines};
ghost use Rattle.tree.specs.declared.refusals.Refusal.{Refusal};
ghost use Rattle.reading.specs.refusal_order.Answered.{IsAnswered};
ghost use Rattle.f90_grammar.specs.FreeForm.{FreeStatement, AreStatements};
ghost use Rattle.f90_grammar.specs.Refusals.{HasNoForm90};
ghost use Rattle.f90_lines.specs.Views.{statements_seen};
ghost use Rattle.f90_statement.specs.Views.{AreOf};
ghost use Rattle.f90_blocks.specs.places.forms.Forms.{IsFormIn};
ghost use Rattle.f90_trees.specs.Hiding.{function_in};
ghost use Rattle.f90_names.specs.calls.Calls.{Tells};
ghost use Rattle.f90_names.specs.calls.Formless.{HasSuitedForm, HaveSuitedForms, FindsFormless, IsFormless};

use crate::calls::hiding::functions_of;
use crate::calls::walk::statement_suits;
use f90_blocks::places::forms::{Placed, forms, places};
use f90_lines::Statement as Written;
use f90_statement::Statement;
use f90_trees::Functions;
use std::alloc::Global;
use tree::{Cause, Memory, Refused, Seq};

fn is_suited(alloc: Global, form: &Option<Statement>, functions: &Functions) -> Result<bool, Memory>
    ensures { (s : FreeStatement) → IsFormIn form.now s
        → Tells result (HasSuitedForm (function_in functions.now) s) }
{
    match form {
        Some(statement) => statement_suits(alloc, statement, functions),
        None => Ok(false),
    }
}

// The line of the first statement that has no form, or none that suits.
fn first_formless(
    alloc: Global,
    statements: &[Written],
    forms: &[Option<Statement>],
    functions: &Functions,
) -> Result<Option<u32>, Memory>
    requires { AreOf IsFormIn forms.now (statements_seen statements.now) }
    ensures { FindsFormless (function_in functions.now) (statements_seen statements.now) result }
{
    for (written, form) in statements.iter().zip(forms) {
        if !is_suited(alloc, form, functions)? {
            return Ok(Some(written.line));
        }
    }
    Ok(None)
}

/// The statements of a text with their lines and marks, where each has a form whose calls have arguments that may stand
/// there. A name that is declared anywhere in the text is no function (ISO/IEC 1539:1991, section 14.1.2).
pub fn placed(alloc: Global, statements: &[Written]) -> Result<Seq<Placed>, Refused>
    ensures ok { IfOk result (λ text. HaveSuitedForms (statements_seen statements.now) text) }
    ensures unrefused { IfOk result (λ text. (s : FreeStatement) → Contains (statements_seen statements.now) s
        → HasNoForm90 (statements_seen statements.now) s → ⊥) }
    ensures refused { (text : List ℕ) (r : Refusal) → AreStatements 1 (lines text) (statements_seen statements.now)
        → result ≡ Err (Refused.Refusal r) → IsAnswered (IsFormless (statements_seen statements.now)) r }

    // Statements that have forms, or are refused, have no other answer, unless memory runs out.
    ensures only_placed { ((s : FreeStatement) → Contains (statements_seen statements.now) s
        → HasNoForm90 (statements_seen statements.now) s → ⊥)
        → IsOkAnd result (λ text. HaveSuitedForms (statements_seen statements.now) text)
        ⊎ (result ≡ Err Refused.Memory) }
    ensures only_refused { (text : List ℕ) (r : Refusal)
        → AreStatements 1 (lines text) (statements_seen statements.now)
        → IsAnswered (IsFormless (statements_seen statements.now)) r
        → (result ≡ Err (Refused.Refusal r)) ⊎ (result ≡ Err Refused.Memory) }
{
    let forms = forms(alloc, statements)?;
    let functions = functions_of(alloc, forms.as_slice())?;
    if let Some(line) = first_formless(alloc, statements, forms.as_slice(), &functions)? {
        return Err(Refused::Refusal(Cause::Syntax90.at(line)));
    }
    let Some(placed) = places(alloc, statements, forms)? else {
        unreachable!();
    };
    Ok(placed)
}
