//! The lines of the statements that stand alone, and the first lines of the others.
ghost use Rattle.std.specs.Prelude.{◌≡◌, ◌++◌, OnOk, map, decimal};
ghost use Rattle.tree.specs.Plain.{expressions, items};
ghost use Rattle.tree.specs.View.{expression_of, reference_of, item_of};
ghost use Rattle.f90_grammar.specs.Forms as forms;
ghost use Rattle.f90_grammar.specs.Printing.{phrase_of};
ghost use Rattle.f90_grammar.specs.PrintedForms.{phrases_of, reference_phrase, step_phrase, read_form, print_form};
ghost use Rattle.f90_grammar.specs.PrintedText.{assignment_text, mark_lines, separated_text, extent_text};
ghost use Rattle.f90_print.specs.Texts.{lines_text, form_lines};

use crate::expressions::{print_expression, print_reference};
use crate::items::{print_items, push_bounds};
use crate::lines::push_lines;
use crate::texts::{push, push_count};
use tree::{Expr, Item, Mark, Memory, Name, Ref};

pub(crate) fn push_assignment(text: &mut Vec<u8>, left: &Ref, right: &Expr) -> Result<(), Memory>
    ensures { OnOk result (text.new.items ≡ text.old.items
        ++ assignment_text (reference_phrase (reference_of left.now)) (phrase_of (expression_of right.now))) }
{
    print_reference(text, left)?;
    push(text, b" = ")?;
    print_expression(text, right)
}

fn push_mark(out: &mut Vec<u8>, mark: Mark) -> Result<(), Memory>
    ensures { OnOk result (out.new.items ≡ out.old.items ++ lines_text (mark_lines (Some mark))) }
{
    push(out, b"!S ")?;
    push_count(out, mark.nest as usize)?;
    push(out, b" ")?;
    push_count(out, mark.stmt as usize)?;
    push(out, b" ")?;
    push_count(out, mark.level as usize)?;
    push(out, b"\n")
}

pub(crate) fn print_mark(out: &mut Vec<u8>, mark: Option<Mark>) -> Result<(), Memory>
    ensures { OnOk result (out.new.items ≡ out.old.items ++ lines_text (mark_lines mark)) }
{
    match mark {
        None => Ok(()),
        Some(mark) => push_mark(out, mark),
    }
}

pub(crate) fn print_assignment(
    out: &mut Vec<u8>,
    line: &mut Vec<u8>,
    left: &Ref,
    right: &Expr,
) -> Result<(), Memory>
    ensures { OnOk result (out.new.items ≡ out.old.items
        ++ form_lines (forms.Assign (reference_phrase (reference_of left.now)) (phrase_of (expression_of right.now)))) }
{
    line.clear();
    push_assignment(line, left, right)?;
    push_lines(out, line.as_slice())
}

pub(crate) fn print_where(
    out: &mut Vec<u8>,
    line: &mut Vec<u8>,
    mask: &Expr,
    left: &Ref,
    right: &Expr,
) -> Result<(), Memory>
    ensures { OnOk result (out.new.items ≡ out.old.items ++ form_lines (forms.Where (phrase_of (expression_of mask.now))
        (reference_phrase (reference_of left.now)) (phrase_of (expression_of right.now)))) }
{
    line.clear();
    push(line, b"WHERE (")?;
    print_expression(line, mask)?;
    push(line, b") ")?;
    push_assignment(line, left, right)?;
    push_lines(out, line.as_slice())
}

pub(crate) fn print_if_then(
    out: &mut Vec<u8>,
    line: &mut Vec<u8>,
    test: &Expr,
) -> Result<(), Memory>
    ensures { OnOk result
        (out.new.items ≡ out.old.items ++ form_lines (forms.If (phrase_of (expression_of test.now)))) }
{
    line.clear();
    push(line, b"IF (")?;
    print_expression(line, test)?;
    push(line, b") THEN")?;
    push_lines(out, line.as_slice())
}

pub(crate) fn print_else_if(
    out: &mut Vec<u8>,
    line: &mut Vec<u8>,
    test: &Expr,
) -> Result<(), Memory>
    ensures { OnOk result
        (out.new.items ≡ out.old.items ++ form_lines (forms.ElseIf (phrase_of (expression_of test.now)))) }
{
    line.clear();
    push(line, b"ELSE IF (")?;
    print_expression(line, test)?;
    push(line, b") THEN")?;
    push_lines(out, line.as_slice())
}

pub(crate) fn print_do(
    out: &mut Vec<u8>,
    line: &mut Vec<u8>,
    var: Name,
    first: &Expr,
    last: &Expr,
    step: &Expr,
) -> Result<(), Memory>
    ensures { OnOk result (out.new.items ≡ out.old.items ++ form_lines (forms.Do var
        (phrase_of (expression_of first.now)) (phrase_of (expression_of last.now))
        (step_phrase (expression_of step.now)))) }
{
    line.clear();
    push(line, b"DO ")?;
    push_bounds(line, var, first, last, step)?;
    push_lines(out, line.as_slice())
}

pub(crate) fn print_continue(
    out: &mut Vec<u8>,
    line: &mut Vec<u8>,
    label: u32,
) -> Result<(), Memory>
    ensures { OnOk result (out.new.items ≡ out.old.items ++ form_lines (forms.Continue (decimal label))) }
{
    line.clear();
    push_count(line, label as usize)?;
    push(line, b" CONTINUE")?;
    push_lines(out, line.as_slice())
}

pub(crate) fn print_go_to(out: &mut Vec<u8>, line: &mut Vec<u8>, label: u32) -> Result<(), Memory>
    ensures { OnOk result (out.new.items ≡ out.old.items ++ form_lines (forms.Go (decimal label))) }
{
    line.clear();
    push(line, b"GO TO ")?;
    push_count(line, label as usize)?;
    push_lines(out, line.as_slice())
}

pub(crate) fn print_read(out: &mut Vec<u8>, line: &mut Vec<u8>, list: &[Item]) -> Result<(), Memory>
    ensures { OnOk result (out.new.items ≡ out.old.items ++ form_lines (read_form (items (map item_of list.now)))) }
{
    if list.is_empty() {
        return push(out, b"READ *\n");
    }
    line.clear();
    push(line, b"READ *, ")?;
    print_items(line, list)?;
    push_lines(out, line.as_slice())
}

pub(crate) fn print_print(
    out: &mut Vec<u8>,
    line: &mut Vec<u8>,
    list: &[Item],
) -> Result<(), Memory>
    ensures { OnOk result (out.new.items ≡ out.old.items ++ form_lines (print_form (items (map item_of list.now)))) }
{
    if list.is_empty() {
        return push(out, b"PRINT *\n");
    }
    line.clear();
    push(line, b"PRINT *, ")?;
    print_items(line, list)?;
    push_lines(out, line.as_slice())
}

// The extents of an array whose lower bounds are 1.
fn push_extents(text: &mut Vec<u8>, extents: &[Expr]) -> Result<(), Memory>
    ensures { OnOk result (text.new.items ≡ text.old.items
        ++ separated_text extent_text (phrases_of (expressions (map expression_of extents.now)))) }
{
    let Some((first, rest)) = extents.split_first() else {
        return Ok(());
    };
    push(text, b"1:")?;
    print_expression(text, first)?;
    for extent in rest {
        push(text, b", 1:")?;
        print_expression(text, extent)?;
    }
    Ok(())
}

pub(crate) fn print_allocate(
    out: &mut Vec<u8>,
    line: &mut Vec<u8>,
    name: Name,
    extents: &[Expr],
) -> Result<(), Memory>
    ensures { OnOk result (out.new.items ≡ out.old.items
        ++ form_lines (forms.Allocate name (phrases_of (expressions (map expression_of extents.now))))) }
{
    line.clear();
    push(line, b"ALLOCATE (")?;
    push(line, name.text())?;
    push(line, b"(")?;
    push_extents(line, extents)?;
    push(line, b"))")?;
    push_lines(out, line.as_slice())
}

pub(crate) fn print_deallocate(
    out: &mut Vec<u8>,
    line: &mut Vec<u8>,
    name: Name,
) -> Result<(), Memory>
    ensures { OnOk result (out.new.items ≡ out.old.items ++ form_lines (forms.Deallocate name)) }
{
    line.clear();
    push(line, b"DEALLOCATE (")?;
    push(line, name.text())?;
    push(line, b")")?;
    push_lines(out, line.as_slice())
}
