//! The texts of programs, expressions and assignments.
ghost use Rattle.std.specs.Prelude.{◌≡◌, ◌++◌, IfOk, OnOk, map, option_copied};
ghost use Rattle.tree.specs.View.{expression_of, reference_of, program_of_90};
ghost use Rattle.f90_grammar.specs.Forms as forms;
ghost use Rattle.f90_grammar.specs.PrintedForms.{printed_title_of};
ghost use Rattle.f90_grammar.specs.PrintedText.{printed90, expression_text, guard_text, guarded_assignment_text};
ghost use Rattle.f90_print.specs.Texts.{lines_text, form_lines};
ghost use Rattle.f90_print.specs.Notes.{line_text, guard_of};

use crate::declarations::print_declarations;
use crate::expressions::print_expression;
use crate::forms::push_assignment;
use crate::lines::push_lines;
use crate::statements::print_block;
use crate::texts::push;
use std::alloc::Global;
use tree::{Expr, Line, Memory, Name, Program90, Ref, Seq};

fn print_notes(out: &mut Vec<u8>, notes: &[Line]) -> Result<(), Memory>
    ensures { OnOk result (out.new.items ≡ out.old.items ++ lines_text (map line_text notes.now)) }
{
    for note in notes {
        push(out, note.text.as_slice())?;
        push(out, b"\n")?;
    }
    Ok(())
}

// A program without a name gets one.
fn push_title(text: &mut Vec<u8>, name: Option<Name>) -> Result<(), Memory>
    ensures { OnOk result (text.new.items ≡ text.old.items ++ printed_title_of name) }
{
    match name {
        None => push(text, b"FV_PROGRAM"),
        Some(name) => push(text, name.text()),
    }
}

fn print_title(out: &mut Vec<u8>, line: &mut Vec<u8>, name: Option<Name>) -> Result<(), Memory>
    ensures { OnOk result (out.new.items ≡ out.old.items ++ form_lines (forms.Program (printed_title_of name))) }
{
    line.clear();
    push(line, b"PROGRAM ")?;
    push_title(line, name)?;
    push_lines(out, line.as_slice())
}

/// The text of a program (ISO/IEC 1539:1991, sections 3.3.1, 5, 8, 9 and 11.1), behind the notes, a line each.
///
/// A statement of more than 130 characters is continued. What no text of Fortran 90 has, such as an IF without an
/// arm or a literal below 0, is printed too, as the definition has it, but isn't read back as itself.
pub fn print90(alloc: Global, p: &Program90, notes: &Seq<Line>) -> Result<Vec<u8>, Memory>
    ensures { IfOk result (λ text. text.items ≡ printed90 (program_of_90 p.now) (map line_text notes.now)) }
{
    let mut out = Vec::new(alloc);
    let mut line = Vec::new(alloc);
    print_notes(&mut out, notes.as_slice())?;
    print_title(&mut out, &mut line, p.name)?;
    push(&mut out, b"IMPLICIT NONE\n")?;
    print_declarations(&mut out, &mut line, p.decls.as_slice())?;
    print_block(&mut out, &mut line, &p.body)?;
    push(&mut out, b"END\n")?;
    Ok(out)
}

/// The text of one expression (ISO/IEC 1539:1991, section 7.1), with the parentheses that the levels of its operators
/// need.
pub fn print_expr(alloc: Global, e: &Expr) -> Result<Seq<u8>, Memory>
    ensures { IfOk result (λ text. text ≡ expression_text (expression_of e.now)) }
{
    let mut text = Vec::new(alloc);
    print_expression(&mut text, e)?;
    Ok(Seq::from_vec(text))
}

fn push_guard(text: &mut Vec<u8>, guard: Option<&Expr>) -> Result<(), Memory>
    ensures { OnOk result (text.new.items ≡ text.old.items ++ guard_text (guard_of (option_copied guard.entry))) }
{
    match guard {
        None => Ok(()),
        Some(test) => {
            push(text, b"IF (")?;
            print_expression(text, test)?;
            push(text, b") ")
        }
    }
}

/// The text of one assignment (ISO/IEC 1539:1991, section 7.5.1), with the condition under which it is performed before
/// it, where there is one.
pub fn print_assign(
    alloc: Global,
    guard: Option<&Expr>,
    left: &Ref,
    right: &Expr,
) -> Result<Seq<u8>, Memory>
    ensures { IfOk result (λ text. text ≡ guarded_assignment_text (guard_of (option_copied guard.entry))
        (reference_of left.now) (expression_of right.now)) }
{
    let mut text = Vec::new(alloc);
    push_guard(&mut text, guard)?;
    push_assignment(&mut text, left, right)?;
    Ok(Seq::from_vec(text))
}
