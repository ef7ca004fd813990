//! The statements of cards.
ghost use Rattle.std.specs.Prelude.{◌++◌, ◌∷◌, [], List, map, IfOk, OnOk};
ghost use Rattle.f77_grammar.specs.Cards.{PlainCard};
ghost use Rattle.f77_cards.specs.Card.{card_of};
ghost use Rattle.f77_read.specs.Cards.{IsCardRead, AreCardsRead, IsTried};

use crate::refusals::first;
use f77_cards::Card;
use f77_grammar::syntax::Labelled;
use f77_statement::parse;
use std::alloc::Global;
use tree::{Memory, Refusal, Refused, Seq};

/// What was found in the cards so far.
#[derive(Drop)]
struct Tried {
    statements: Seq<Labelled>,
    // The first of the refusals.
    refusal: Option<Refusal>,
}

fn read_card(alloc: Global, card: &Card) -> Result<Labelled, Refused>
    ensures { IsCardRead (card_of card.now) result }
{
    let statement = parse(alloc, card)?;
    Ok(Labelled {
        label: card.label,
        line: card.line,
        statement,
    })
}

impl Tried {
    fn try_card(&mut self, alloc: Global, card: &Card) -> Result<(), Memory>
        ensures { (cards : List PlainCard) → IsTried cards self.old
            → OnOk result (IsTried (cards ++ card_of card.now ∷ []) self.new) }
    {
        match read_card(alloc, card) {
            Ok(statement) => self.statements.push(statement)?,
            Err(Refused::Refusal(refusal)) => self.refusal = Some(first(self.refusal, refusal)),
            Err(Refused::Memory) => return Err(Memory),
        }
        Ok(())
    }
}

// Every card is tried, whether one before it is refused or not.
fn try_cards(alloc: Global, cards: &[Card]) -> Result<Tried, Memory>
    ensures { IfOk result (IsTried (map card_of cards.now)) }
{
    let mut tried = Tried {
        statements: Seq::new(alloc),
        refusal: None,
    };
    for card in cards {
        tried.try_card(alloc, card)?;
    }
    Ok(tried)
}

/// The statements of the cards, each read from its card, or the first of the refusals of cards.
pub fn read_cards(alloc: Global, cards: &[Card]) -> Result<Seq<Labelled>, Refused>
    ensures { AreCardsRead (map card_of cards.now) result }
{
    let Tried {
        statements,
        refusal,
    } = try_cards(alloc, cards)?;
    match refusal {
        None => Ok(statements),
        Some(refusal) => Err(Refused::Refusal(refusal)),
    }
}
