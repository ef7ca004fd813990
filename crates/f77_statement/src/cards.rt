//! From a card to its statement.
ghost use Rattle.std.specs.Prelude.{◌≡◌, ◌⊎◌, ℕ, IfOk, IsOkAnd};
ghost use Rattle.tree.specs.declared.refusals.Refusal as refusals;
ghost use Rattle.f77_grammar.specs.Statement77.{Statement77};
ghost use Rattle.f77_grammar.specs.statements.Reading.{ReadsStatement, IsRefusedBy};
ghost use Rattle.f77_grammar.specs.syntax.Views as view;
ghost use Rattle.f77_expressions.specs.Symbols.{symbols_of};
ghost use Rattle.f77_statement.specs.Refusing.{IsFormless, limited};

use crate::formed::Formed;
use crate::forms::form;
use f77_cards::Card;
use f77_expressions::{Symbol, squeeze};
use f77_grammar::syntax::Stmt77;
use f77_words::keywords::word_left_out;
use reading::Stop;
use std::alloc::Global;
use tree::{Cause, EXPRESSION_DEPTH_77, Refusal, Refused};

// The statement, where its literals and its depth are within the limits.
fn limited(made: Formed, line: u32) -> Result<Stmt77, Refused>
    ensures { result ≡ limited made line }
{
    if made.wide {
        return Err(Refused::Refusal(Cause::WideLiteral.at(line)));
    }
    if made.depth > EXPRESSION_DEPTH_77 {
        return Err(Refused::Refusal(Cause::Deep.at(line)));
    }
    Ok(made.statement)
}

// Why a text that has no form is refused.
fn formless(text: &[Symbol], line: u32) -> Refusal
    ensures line { result.line ≡ line }
    ensures found { IsFormless (symbols_of text.now) result.number result.word }
    ensures only { (number word : ℕ) → IsFormless (symbols_of text.now) number word → (result.number ≡ number)
        × (result.word ≡ word) }
{
    match word_left_out(text) {
        Some(word) => Cause::OutOfProfile(word).at(line),
        None => Cause::Syntax.at(line),
    }
}

/// The statement of a card. The first cause that holds refuses it: no form, of which a word that is left out of the
/// profile is told by its number; a literal above 2^127-1; an expression or a list more than 400 deep.
pub fn parse(alloc: Global, card: &Card) -> Result<Stmt77, Refused>
    ensures read { IfOk result (λ s. ReadsStatement card.now.chars (view.statement_of s)) }
    ensures refused { (r : refusals.Refusal) → result ≡ Err (Refused.Refusal r) → (r.line ≡ card.now.line)
        × IsRefusedBy card.now.chars r.number r.word }

    // A card that is read, or refused, has no other answer, unless memory runs out.
    ensures only_read { (s : Statement77) → ReadsStatement card.now.chars s
        → IsOkAnd result (λ read. view.statement_of read ≡ s) ⊎ (result ≡ Err Refused.Memory) }
    ensures only_refused { (number word : ℕ) → IsRefusedBy card.now.chars number word
        → (result ≡ Err (Refused.Refusal (record { number = number; line = card.now.line; word = word })))
        ⊎ (result ≡ Err Refused.Memory) }
{
    let symbols = squeeze(alloc, card.chars.as_slice())?;
    match form(alloc, symbols.as_slice()) {
        Ok(made) => limited(made, card.line),
        Err(Stop::Syntax) => Err(Refused::Refusal(formless(symbols.as_slice(), card.line))),
        Err(Stop::Memory) => Err(Refused::Memory),
    }
}
