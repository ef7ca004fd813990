//! Texts that grow.
ghost use Rattle.std.specs.Prelude.{◌≡◌, ◌++◌, OnOk, decimal};
ghost use Rattle.tree.specs.Plain.{Number};
ghost use Rattle.f90_grammar.specs.Printing.{digits_of};
ghost use Rattle.f90_grammar.specs.Words.{truth_text};

use itoa::Buffer;
use tree::Memory;

pub(crate) fn push(text: &mut Vec<u8>, part: &[u8]) -> Result<(), Memory>
    ensures { OnOk result (text.new.items ≡ text.old.items ++ part.now) }
{
    text.extend_from_slice(part)?;
    Ok(())
}

pub(crate) fn push_count(text: &mut Vec<u8>, count: usize) -> Result<(), Memory>
    ensures { OnOk result (text.new.items ≡ text.old.items ++ decimal count) }
{
    push(text, Buffer::new().format(count).as_bytes())
}

// A literal has no sign: for a number below 0 there is none.
pub(crate) fn push_literal(text: &mut Vec<u8>, number: i128) -> Result<(), Memory>
    ensures { OnOk result (text.new.items ≡ text.old.items ++ digits_of number) }
{
    if number < 0 {
        return Ok(());
    }
    push(text, Buffer::new().format(number).as_bytes())
}

pub(crate) fn push_truth(text: &mut Vec<u8>, truth: bool) -> Result<(), Memory>
    ensures { OnOk result (text.new.items ≡ text.old.items ++ truth_text truth) }
{
    if truth {
        push(text, b".TRUE.")
    } else {
        push(text, b".FALSE.")
    }
}
