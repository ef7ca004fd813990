//! GO TO: forwards, and never into a block or loop (ANSI X3.9-1978, sections 11.1 and 11.6 to 11.10).
ghost use Rattle.std.specs.Prelude.{◌≡◌, IfOk};
ghost use Rattle.f77_grammar.specs.program.Jumps.{has_wrong_jump};
ghost use Rattle.f77_grammar.specs.syntax.First.{first_index};
ghost use Rattle.f77_grammar.specs.syntax.Views.{text_of};
ghost use Rattle.f77_structure.specs.LabelPlaces.{AreEndsIn};
ghost use Rattle.f77_structure.specs.jumps.LabelTargets.{target_in};
ghost use Rattle.f77_structure.specs.jumps.Targets.{jumps_wrongly_to};

use crate::jumps::targets::{LabelTargets, targets_of};
use crate::{Form, LabelPlaces, here_if};
use f77_grammar::syntax::Labelled;
use std::alloc::Global;
use tree::Memory;

impl LabelTargets {
    // A statement of this form is a GO TO that leads wrongly to the statement with its label, or to none.
    fn refuse(&self, form: Form, at: usize) -> bool
        ensures { result ≡ jumps_wrongly_to form (target_in self.now) at }
    {
        match form {
            Form::Go(label) => match self.get(label) {
                Some(target) => target.refuses(at),
                None => true,
            },
            Form::Title | Form::ImplicitNone | Form::Declaration | Form::Action => false,
            Form::Stop | Form::LogicalIf | Form::If | Form::ElseIf | Form::Else => false,
            Form::EndIf | Form::Do(_) | Form::EndDo | Form::End => false,
        }
    }
}

/// The place of the first statement with a GO TO that goes backwards, into a block or loop, or to a statement that no
/// GO TO leads to.
pub fn wrong_jump(
    alloc: Global,
    text: &[Labelled],
    ends: &LabelPlaces,
) -> Result<Option<usize>, Memory>
    requires { AreEndsIn ends.now (text_of text.now) }
    ensures { IfOk result (λ place. place ≡ first_index has_wrong_jump (text_of text.now)) }
{
    let targets = targets_of(alloc, text, ends)?;
    let mut behind = LabelTargets::new(alloc);
    let mut found = None;
    let mut i = text.len();
    while i > 0 {
        i -= 1;
        let statement = &text[i];
        let form = Form::of(statement.statement.action());
        found = here_if(behind.refuse(form, i), i, found);
        behind.put(statement.label, targets[i])?;
    }
    Ok(found)
}
