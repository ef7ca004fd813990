//! The order of statements: PROGRAM, IMPLICIT NONE, declarations, executable statements, END (ANSI X3.9-1978, section
//! 3.5; MIL-STD-1753).
ghost use Rattle.std.specs.Prelude.{◌≡◌, ◌||◌};
ghost use Rattle.f77_grammar.specs.program.Order.{is_out_of_order, is_ended_wrongly};
ghost use Rattle.f77_grammar.specs.syntax.First.{first_index};
ghost use Rattle.f77_structure.specs.Forms.{is_executable_form, follows_title_form, is_wrong_end_form, is_late_form};
ghost use Rattle.f77_grammar.specs.syntax.Views.{text_of};

use crate::forms::Form;
use f77_grammar::syntax::Labelled;

impl Form {
    // A statement that a run executes, or one behind such statements.
    fn is_executable_or(self, executable: bool) -> bool
        ensures { result ≡ (is_executable_form self || executable) }
    {
        match self {
            Form::Title | Form::ImplicitNone | Form::Declaration | Form::End => executable,
            Form::Action | Form::Go(_) | Form::Stop | Form::LogicalIf => true,
            Form::If | Form::ElseIf | Form::Else | Form::EndIf | Form::Do(_) | Form::EndDo => true,
        }
    }

    // IMPLICIT NONE, a declaration or an executable statement, or one behind such statements.
    fn follows_title_or(self, more: bool) -> bool
        ensures { result ≡ (follows_title_form self || more) }
    {
        match self {
            Form::Title | Form::End => more,
            Form::ImplicitNone | Form::Declaration | Form::Action | Form::Go(_) => true,
            Form::Stop | Form::LogicalIf | Form::If | Form::ElseIf | Form::Else => true,
            Form::EndIf | Form::Do(_) | Form::EndDo => true,
        }
    }

    // END stands before the last statement, or another one is the last.
    fn is_wrong_end(self, last: bool) -> bool
        ensures { result ≡ is_wrong_end_form self last }
    {
        match self {
            Form::End => !last,
            Form::Title | Form::ImplicitNone | Form::Declaration | Form::Action => last,
            Form::Go(_) | Form::Stop | Form::LogicalIf | Form::If | Form::ElseIf => last,
            Form::Else | Form::EndIf | Form::Do(_) | Form::EndDo => last,
        }
    }

    // It comes too late: behind other statements, behind more than PROGRAM, or behind executable ones.
    fn is_late(self, first: bool, more: bool, executable: bool) -> bool
        ensures { result ≡ is_late_form self first more executable }
    {
        match self {
            Form::Title => !first,
            Form::ImplicitNone => more,
            Form::Declaration => executable,
            Form::Action | Form::Go(_) | Form::Stop | Form::LogicalIf | Form::If => false,
            Form::ElseIf | Form::Else | Form::EndIf | Form::Do(_) | Form::EndDo => false,
            Form::End => false,
        }
    }
}

/// The place of the first statement that is out of order.
pub fn out_of_order(text: &[Labelled]) -> Option<usize>
    ensures { result ≡ first_index is_out_of_order (text_of text.now) }
{
    let mut more = false;
    let mut executable = false;
    for (i, statement) in text.iter().enumerate() {
        let form = Form::of(&statement.statement);
        if form.is_late(i == 0, more, executable) {
            return Some(i);
        }
        more = form.follows_title_or(more);
        executable = form.is_executable_or(executable);
    }
    None
}

/// The place at which END is missing, or stands early.
pub fn wrong_end(text: &[Labelled]) -> Option<usize>
    ensures { result ≡ first_index is_ended_wrongly (text_of text.now) }
{
    for (i, statement) in text.iter().enumerate() {
        let last = i + 1 == text.len();
        if Form::of(&statement.statement).is_wrong_end(last) {
            return Some(i);
        }
    }
    None
}
