//! The text of a deck.
ghost use Rattle.std.specs.Prelude.{◌≡◌, ◌<◌, ◌≤◌, ◌++◌, ◌^◌, length, decimal, IfOk, OnOk};
ghost use Rattle.generator.specs.Draws.{state_after};
ghost use Rattle.generator.specs.Statements.{drawn_array_name, reference_text, statement_text, drawn_statement};
ghost use Rattle.generator.specs.Decks.{blanks_before, nest_text, nest_at, deck_of, most_nests};

use crate::draws::{DrawnStatement, Draws};
use itoa::Buffer;
use std::alloc::{AllocError, Global};

// The label of the first nest.
const FIRST_LABEL: u32 = 11;

fn push(text: &mut Vec<u8>, part: &[u8]) -> Result<(), AllocError>
    ensures { OnOk result (text.new.items ≡ text.old.items ++ part.now) }
{
    text.extend_from_slice(part)
}

fn push_number(text: &mut Vec<u8>, number: u32) -> Result<(), AllocError>
    ensures { OnOk result (text.new.items ≡ text.old.items ++ decimal number) }
{
    push(text, Buffer::new().format(number).as_bytes())
}

fn array_name(number: u32) -> &'static str
    ensures { result.now ≡ drawn_array_name number }
{
    match number {
        0 => "A",
        1 => "B",
        _ => "C",
    }
}

#[tactic(auto, unfolding(crate::specs::Statements::reference_text))]
fn push_reference(text: &mut Vec<u8>, array: u32, shift: u32) -> Result<(), AllocError>
    ensures { OnOk result (text.new.items ≡ text.old.items ++ reference_text array shift) }
{
    push(text, array_name(array).as_bytes())?;
    push(text, b"(I+")?;
    push_number(text, shift)?;
    push(text, b")")
}

#[tactic(auto, unfolding(crate::specs::Statements::statement_text))]
fn push_statement(text: &mut Vec<u8>, statement: DrawnStatement) -> Result<(), AllocError>
    ensures { OnOk result (text.new.items ≡ text.old.items ++ statement_text statement) }
{
    push(text, b"      ")?;
    push_reference(text, statement.to, statement.to_shift)?;
    push(text, b" = ")?;
    push_reference(text, statement.from, statement.from_shift)?;
    push(text, b" + ")?;
    push_number(text, statement.added)?;
    push(text, b"\n")
}

// A label of two or three digits ends in the fifth column.
fn blanks_before(label: u32) -> &'static str
    ensures { result.now ≡ blanks_before label }
{
    if label < 100 { "   " } else { "  " }
}

#[tactic(auto, unfolding(crate::specs::Decks::nest_text))]
fn push_nest(
    text: &mut Vec<u8>,
    label: u32,
    first: DrawnStatement,
    second: DrawnStatement,
) -> Result<(), AllocError>
    ensures { OnOk result (text.new.items ≡ text.old.items ++ nest_text label first second) }
{
    push(text, b"      DO ")?;
    push_number(text, label)?;
    push(text, b" I = 1, 100\n")?;
    push_statement(text, first)?;
    push_statement(text, second)?;
    push(text, blanks_before(label).as_bytes())?;
    push_number(text, label)?;
    push(text, b" CONTINUE\n")
}

// The nest with this label, by the next ten draws.
#[tactic(auto, using(crate::proofs::DrawLaws::five_more), unfolding(crate::specs::Decks::nest_at))]
fn draw_nest(text: &mut Vec<u8>, label: u32, draws: &mut Draws) -> Result<(), AllocError>
    ensures text { OnOk result (text.new.items ≡ text.old.items ++ nest_at label draws.old.state) }
    ensures draws { draws.new.state ≡ state_after 10 draws.old.state }
{
    let first = draws.statement();
    let second = draws.statement();
    push_nest(text, label, first, second)
}

/// The deck of so many nests.
#[rattlefmt::skip]
#[tactic(auto, using(crate::proofs::DrawLaws::ten_more, crate::proofs::DeckTexts::more_nests,
    crate::proofs::DeckTexts::short_deck), unfolding(crate::specs::Decks::deck_of))]
pub fn generated(alloc: Global, nests: u32) -> Result<Vec<u8>, AllocError>
    requires { nests ≤ most_nests }
    ensures deck { IfOk result (λ deck. deck.items ≡ deck_of nests) }
    ensures short { IfOk result (λ deck. length deck.items < 2 ^ 24) }
{
    let mut draws = Draws::from_seed(nests);
    let mut deck = Vec::from_slice(alloc, b"      INTEGER A(200), B(200), C(200)\n")?;
    for before in 0..nests {
        draw_nest(&mut deck, FIRST_LABEL + before, &mut draws)?;
    }
    push(
        &mut deck,
        b"      PRINT *, A(100), B(100), C(100)\n      END\n",
    )?;
    Ok(deck)
}
