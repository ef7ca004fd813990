//! The statements of a source.
ghost use Rattle.std.specs.Prelude.{◌≡◌, ◌⊎◌, ◌≤◌, List, [], length, map, None, IfOk, IsOkAnd, OnOk};
ghost use Rattle.tree.specs.declared.refusals.Refusal.{Refusal};
ghost use Rattle.f77_grammar.specs.Cards.{PlainCard, ReadsCards, RefusedCards, card_in, label_in_field};
ghost use Rattle.f77_grammar.specs.Cards.{statement_lines};
ghost use Rattle.f77_grammar.proofs.Grouping.{leading, grouped};
ghost use Rattle.f77_grammar.proofs.CardCauses.{refusal_of};
ghost use Rattle.f77_cards.specs.Card.{card_of};
ghost use Rattle.f77_cards.specs.Left.{lines_left};
ghost use Rattle.f77_cards.specs.Source.{line_of};

use crate::refusals::refusal;
use crate::source::{Line, Lines};
use std::alloc::Global;
use tree::{Memory, Refused, Seq};

/// A statement as it is written in fixed form.
#[derive(Drop)]
pub struct Card {
    /// None: no label is written.
    pub label: Option<u32>,
    /// The number of its initial line, from 1.
    pub line: u32,
    /// Columns 7 to 72 of its initial line and of each continuation line.
    pub chars: Seq<u8>,
}

// The number that the digits of a label field write.
fn label(field: &[u8]) -> Option<u32>
    requires { length field.now ≤ 5 }
    ensures { result ≡ label_in_field field.now }
{
    let mut label = None;
    for column in field {
        if column.is_ascii_digit() {
            label = Some(label.unwrap_or(0) * 10 + u32::from(*column - b'0'));
        }
    }
    label
}

// The statement of an initial line and of the continuation lines at the front of the lines left, which are taken.
fn read_card(alloc: Global, first: &Line, lines: &mut Lines<'_>) -> Result<Card, Memory>
    ensures card { IfOk result (λ card. card_of card
        ≡ card_in (record { initial = line_of first.now; continuations = leading (lines_left lines.old) })) }
    ensures statements { OnOk result (grouped (lines_left lines.new) ≡ grouped (lines_left lines.old)) }
    ensures next { OnOk result (leading (lines_left lines.new) ≡ []) }
    ensures fewer { length (lines_left lines.new) ≤ length (lines_left lines.old) }
{
    let mut chars = Vec::from_slice(alloc, first.statement_field())?;
    while let Some(line) = lines.next_continuation() {
        chars.extend_from_slice(line.statement_field())?;
    }
    Ok(Card {
        label: label(first.label_field()),
        line: first.number,
        chars: Seq::from_vec(chars),
    })
}

fn read_cards(alloc: Global, text: &[u8]) -> Result<Seq<Card>, Memory>
    requires { refusal_of text.now ≡ None }
    ensures { IfOk result (λ cards. map card_of cards ≡ map card_in (grouped (statement_lines text.now))) }
{
    let mut cards = Seq::new(alloc);
    let mut lines = Lines::new(text);
    while let Some(initial) = lines.next() {
        cards.push(read_card(alloc, &initial, &mut lines)?)?;
    }
    Ok(cards)
}

/// The statements of a source in fixed form.
pub fn statements(alloc: Global, text: &[u8]) -> Result<Seq<Card>, Refused>
    ensures ok { IfOk result (λ cards. ReadsCards text.now (map card_of cards)) }
    ensures refused { (r : Refusal) → result ≡ Err (Refused.Refusal r) → RefusedCards text.now r }

    // A source that is read, or refused, has no other answer, unless memory runs out.
    ensures only_read { (cards : List PlainCard) → ReadsCards text.now cards
        → IsOkAnd result (λ read. map card_of read ≡ cards) ⊎ (result ≡ Err Refused.Memory) }
    ensures only_refused { (r : Refusal) → RefusedCards text.now r
        → (result ≡ Err (Refused.Refusal r)) ⊎ (result ≡ Err Refused.Memory) }
{
    if let Some(refusal) = refusal(text) {
        return Err(Refused::Refusal(refusal));
    }
    Ok(read_cards(alloc, text)?)
}
