//! The text of the lists of READ and PRINT, and of the bounds of loops (ISO/IEC 1539:1991, sections 8.1.4 and 9.4.2).
ghost use Rattle.std.specs.Prelude.{◌≡◌, ◌++◌, ◌∷◌, [], OnOk, map};
ghost use Rattle.tree.specs.Plain.{items};
ghost use Rattle.tree.specs.View.{expression_of, item_of};
ghost use Rattle.f90_grammar.specs.Printing.{phrase_of};
ghost use Rattle.f90_grammar.specs.PrintedForms.{step_phrase, item_phrase, item_phrases};
ghost use Rattle.f90_grammar.specs.PrintedText.{step_text, bounds_text, constant_text, item_text, items_text};
ghost use Rattle.reading.specs.Characters.{doubled};

use crate::expressions::{is_one, print_expression};
use crate::texts::push;
use tree::{Expr, Item, Memory, Name};

// Within a constant an apostrophe is written twice.
fn push_quoted(text: &mut Vec<u8>, byte: u8) -> Result<(), Memory>
    ensures { OnOk result (text.new.items ≡ text.old.items ++ doubled (byte ∷ [])) }
{
    if byte == b'\'' {
        push(text, b"'")?;
    }
    text.push(byte)?;
    Ok(())
}

fn push_doubled(text: &mut Vec<u8>, constant: &[u8]) -> Result<(), Memory>
    ensures { OnOk result (text.new.items ≡ text.old.items ++ doubled constant.now) }
{
    for byte in constant {
        push_quoted(text, *byte)?;
    }
    Ok(())
}

fn push_constant(text: &mut Vec<u8>, constant: &[u8]) -> Result<(), Memory>
    ensures { OnOk result (text.new.items ≡ text.old.items ++ constant_text constant.now) }
{
    push(text, b"'")?;
    push_doubled(text, constant)?;
    push(text, b"'")
}

// A step of 1 isn't written.
fn push_step(text: &mut Vec<u8>, step: &Expr) -> Result<(), Memory>
    ensures { OnOk result (text.new.items ≡ text.old.items ++ step_text (step_phrase (expression_of step.now))) }
{
    if is_one(step) {
        return Ok(());
    }
    push(text, b", ")?;
    print_expression(text, step)
}

// A loop's variable and its bounds.
pub(crate) fn push_bounds(
    text: &mut Vec<u8>,
    var: Name,
    first: &Expr,
    last: &Expr,
    step: &Expr,
) -> Result<(), Memory>
    ensures { OnOk result (text.new.items ≡ text.old.items ++ bounds_text var (phrase_of (expression_of first.now))
        (phrase_of (expression_of last.now)) (step_phrase (expression_of step.now))) }
{
    push(text, var.text())?;
    push(text, b" = ")?;
    print_expression(text, first)?;
    push(text, b", ")?;
    print_expression(text, last)?;
    push_step(text, step)
}

#[cycle(item)]
#[tactic(auto, using(crate::proofs::ItemTexts::item_texts))]
fn print_item(text: &mut Vec<u8>, item: &Item) -> Result<(), Memory>
    ensures { OnOk result (text.new.items ≡ text.old.items ++ item_text (item_phrase (item_of item.now))) }
{
    match item {
        Item::One(e) => print_expression(text, e),
        Item::Text(constant) => push_constant(text, constant.as_slice()),
        Item::Turns(list, var, first, last, step) => {
            push(text, b"(")?;
            print_items(text, list.as_slice())?;
            push(text, b", ")?;
            push_bounds(text, *var, first, last, step)?;
            push(text, b")")
        }
    }
}

// Items with a comma between two; an empty constant stands for none.
#[cycle(item)]
#[tactic(auto, using(crate::proofs::ItemTexts::item_texts))]
pub(crate) fn print_items(text: &mut Vec<u8>, list: &[Item]) -> Result<(), Memory>
    ensures { OnOk result
        (text.new.items ≡ text.old.items ++ items_text (item_phrases (items (map item_of list.now)))) }
{
    let Some((first, rest)) = list.split_first() else {
        return push_constant(text, b"");
    };
    print_item(text, first)?;
    for item in rest {
        push(text, b", ")?;
        print_item(text, item)?;
    }
    Ok(())
}
