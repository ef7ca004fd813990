//! The form of each statement of a text, if it has one.
ghost use Rattle.std.specs.Prelude.{IfOk};
ghost use Rattle.f90_expressions.specs.words.Tokens.{words_of};
ghost use Rattle.f90_lines.specs.Views.{statement_seen, statements_seen};
ghost use Rattle.f90_statement.specs.Views.{AreOf};
ghost use Rattle.f90_blocks.specs.places.forms.Forms.{IsFormIn, ReadsForm, ReadsWords};

use f90_expressions::words::{Token, words};
use f90_lines::Statement as Written;
use f90_statement::Statement;
use reading::Stop;
use std::alloc::Global;
use tree::{Memory, Seq};

fn form_of_words(alloc: Global, tokens: &[Token]) -> Result<Option<Statement>, Memory>
    ensures { ReadsWords (words_of tokens.now) result }
{
    match Statement::read(alloc, tokens) {
        Ok(statement) => Ok(Some(statement)),
        Err(Stop::Syntax) => Ok(None),
        Err(Stop::Memory) => Err(Memory),
    }
}

// The form of a statement, if it has one.
#[tactic(auto, using(crate::proofs::places::OfForms::FormLaws::forms))]
fn form(alloc: Global, written: &Written) -> Result<Option<Statement>, Memory>
    ensures { ReadsForm (statement_seen written.now) result }
{
    match words(alloc, written.chars.as_slice()) {
        Ok(tokens) => form_of_words(alloc, tokens.as_slice()),
        Err(Stop::Syntax) => Ok(None),
        Err(Stop::Memory) => Err(Memory),
    }
}

/// The form of each statement, and none at one that has none.
pub fn forms(alloc: Global, statements: &[Written]) -> Result<Seq<Option<Statement>>, Memory>
    ensures { IfOk result (λ forms. AreOf IsFormIn forms (statements_seen statements.now)) }
{
    let mut forms = Seq::new(alloc);
    'reading: for written in statements {
        forms.push(form(alloc, written)?)?;
    }
    Ok(forms)
}
