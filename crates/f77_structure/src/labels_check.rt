//! Labels: each is from 1 to 99999 and stands once, and one that is named stands somewhere.
ghost use Rattle.std.specs.Prelude.{◌≡◌, ℕ, ◌||◌, true, false, IfOk};
ghost use Rattle.f77_grammar.specs.program.Text.{label_stands_in, action};
ghost use Rattle.f77_grammar.specs.program.Labels.{has_wrong_label};
ghost use Rattle.f77_grammar.specs.syntax.First.{first_index};
ghost use Rattle.f77_structure.specs.Forms.{form_of, label_in};
ghost use Rattle.f77_structure.specs.Labels.{has, is_refused};
ghost use Rattle.f77_grammar.specs.syntax.Views.{text_of, statement_of};

use crate::forms::Form;
use crate::labels::Labels;
use f77_grammar::syntax::Labelled;
use std::alloc::Global;
use tree::Memory;

impl Form {
    /// The label that a GO TO or a DO names.
    fn label(self) -> Option<u32>
        ensures { result ≡ label_in self }
    {
        match self {
            Form::Go(label) => Some(label),
            Form::Do(label) => label,
            Form::Title | Form::ImplicitNone | Form::Declaration | Form::Action => None,
            Form::Stop | Form::LogicalIf | Form::If | Form::ElseIf | Form::Else => None,
            Form::EndIf | Form::EndDo | Form::End => None,
        }
    }
}

/// The labels that the statements bear.
pub fn labels_of(alloc: Global, text: &[Labelled]) -> Result<Labels, Memory>
    ensures { IfOk result (λ labels. (n : ℕ) → has labels n ≡ label_stands_in (text_of text.now) n) }
{
    let mut labels = Labels::new(alloc);
    for statement in text {
        labels.note(statement.label)?;
    }
    Ok(labels)
}

// The label is 0, or is in the set, or the other way round.
fn is_wrong(label: Option<u32>, labels: &Labels, refused: bool) -> bool
    ensures { result ≡ is_refused labels.now refused label }
{
    match label {
        Some(label) => label == 0 || labels.contains(label) == refused,
        None => false,
    }
}

// The statement has a wrong label, or names one.
fn has_wrong_label_among(statement: &Labelled, earlier: &Labels, all: &Labels) -> bool
    ensures { result ≡ (is_refused earlier.now true statement.now.label
        || is_refused all.now false (label_in (form_of (action (statement_of statement.now.statement))))) }
{
    let named = Form::of(statement.statement.action()).label();
    is_wrong(statement.label, earlier, true) || is_wrong(named, all, false)
}

/// The place of the first statement with a wrong label, or that names one.
pub fn wrong_label(alloc: Global, text: &[Labelled]) -> Result<Option<usize>, Memory>
    ensures { IfOk result (λ place. place ≡ first_index (has_wrong_label (text_of text.now)) (text_of text.now)) }
{
    let all = labels_of(alloc, text)?;
    let mut earlier = Labels::new(alloc);
    for (i, statement) in text.iter().enumerate() {
        if has_wrong_label_among(statement, &earlier, &all) {
            return Ok(Some(i));
        }
        earlier.note(statement.label)?;
    }
    Ok(None)
}
