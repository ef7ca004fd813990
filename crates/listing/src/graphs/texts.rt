//! Texts that grow.
ghost use Rattle.std.specs.Prelude.{◌≡◌, ◌++◌, ℕ, List, OnOk, codes};
ghost use Rattle.std.specs.Fmt.{decimal, signed_decimal};
ghost use Rattle.std.specs.List.{flat_map};
ghost use Rattle.listing.specs.graphs.Lines.{statement_name, tuple_text};
ghost use Rattle.listing.specs.graphs.Words.{direction_sign};

use crate::graphs::words::sign;
use itoa::Buffer;
use subscripts::Dir;
use tree::Memory;

pub(crate) fn push(text: &mut Vec<u8>, part: &[u8]) -> Result<(), Memory>
    ensures { OnOk result (text.new.items ≡ text.old.items ++ part.now) }
{
    text.extend_from_slice(part)?;
    Ok(())
}

pub(crate) fn push_count(text: &mut Vec<u8>, count: usize) -> Result<(), Memory>
    ensures { OnOk result (text.new.items ≡ text.old.items ++ decimal count) }
{
    push(text, Buffer::new().format(count).as_bytes())
}

// The name of the statement with this number.
pub(crate) fn push_statement(text: &mut Vec<u8>, s: usize) -> Result<(), Memory>
    ensures { OnOk result (text.new.items ≡ text.old.items ++ statement_name s) }
{
    push(text, b"S")?;
    push_count(text, s)
}

// What may stand in a tuple.
pub(crate) trait Shown: Copy {
    ghost text: { Self → List ℕ };

    fn push_to(self, out: &mut Vec<u8>) -> Result<(), Memory>
        ensures { OnOk result (out.new.items ≡ out.old.items ++ text self) };
}

impl Shown for u32 {
    ghost text = { decimal };

    fn push_to(self, out: &mut Vec<u8>) -> Result<(), Memory> {
        push_count(out, self as usize)
    }
}

impl Shown for i64 {
    ghost text = { signed_decimal };

    fn push_to(self, out: &mut Vec<u8>) -> Result<(), Memory> {
        push(out, Buffer::new().format(self).as_bytes())
    }
}

impl Shown for Dir {
    ghost text = { direction_sign };

    fn push_to(self, out: &mut Vec<u8>) -> Result<(), Memory> {
        push(out, sign(self))
    }
}

fn push_each<T: Shown>(text: &mut Vec<u8>, items: &[T]) -> Result<(), Memory>
    ensures { OnOk result (text.new.items ≡ text.old.items ++ flat_map (λ y. codes "," ++ T.text y) items.now) }
{
    for item in items {
        push(text, b",")?;
        item.push_to(text)?;
    }
    Ok(())
}

// A list in parentheses.
pub(crate) fn push_tuple<T: Shown>(text: &mut Vec<u8>, items: &[T]) -> Result<(), Memory>
    ensures { OnOk result (text.new.items ≡ text.old.items ++ tuple_text T.text items.now) }
{
    let Some((first, rest)) = items.split_first() else {
        return push(text, b"()");
    };
    push(text, b"(")?;
    first.push_to(text)?;
    push_each(text, rest)?;
    push(text, b")")
}
