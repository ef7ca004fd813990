//! An expression by itself.
ghost use Rattle.std.specs.Prelude.{◌≡◌, ◌<◌, ◌↔◌, IfOk, IsTrue, IsErrOf};
ghost use Rattle.std.specs.List.{list_any};
ghost use Rattle.tree.specs.View.{expression_of};
ghost use Rattle.f77_grammar.specs.expressions.Phrases.{Phrase77, IsExpression77, written77};
ghost use Rattle.tree.specs.Plain.{Expression};
ghost use Rattle.f77_grammar.specs.expressions.Printing.{IsSource, printed};
ghost use Rattle.f77_grammar.specs.expressions.Reading.{ReadsAs, Spells, IsSpelled, IsWide, IsDeep};
ghost use Rattle.f77_grammar.specs.expressions.Words.{is_wide_word};
ghost use Rattle.f77_grammar.specs.expressions.Words as words;
ghost use Rattle.f77_expressions.specs.Reading as reading;
ghost use Rattle.f77_expressions.specs.Reading.{GivesWhole, Answers, ReadsBack};
ghost use Rattle.f77_expressions.specs.Views.{words_of};

use crate::lexer::words;
use crate::operands::Operand;
use crate::reader::read;
use crate::symbols::squeeze;
use crate::tokens::Token;
use reading::Stop;
use std::alloc::Global;
use tree::{EXPRESSION_DEPTH_77, Expr, Memory};

/// Why characters aren't read as an expression: the first of these that holds.
#[derive(Clone, Copy, Debug, PartialEq, Eq)]
pub enum Unread {
    NoExpression,
    WideLiteral,
    Deep,
    OutOfMemory,
}

impl From<Stop> for Unread {
    ghost use Rattle.std.specs.Prelude.{◌≡◌};
    ghost use Rattle.f77_expressions.specs.Reading.{unread_of};

    ghost from_gives = { λ stop unread. unread ≡ unread_of stop };

    fn from(stop: Stop) -> Unread {
        match stop {
            Stop::Syntax => Unread::NoExpression,
            Stop::Memory => Unread::OutOfMemory,
        }
    }
}

impl From<Memory> for Unread {
    ghost use Rattle.std.specs.Prelude.{◌≡◌};
    ghost use Rattle.f77_expressions.specs.declared.expressions.Unread.TheVariants as Unread;

    ghost from_gives = { λ _ unread. unread ≡ Unread.OutOfMemory };

    fn from(_: Memory) -> Unread {
        Unread::OutOfMemory
    }
}

/// Whether a literal is above 2^127-1.
pub fn has_wide(tokens: &[Token]) -> bool
    ensures { result ≡ list_any is_wide_word (words_of tokens.now) }
{
    for token in tokens {
        if token.is_wide() {
            return true;
        }
    }
    false
}

/// All words as one expression.
pub fn whole(alloc: Global, tokens: &[Token]) -> Result<Operand, Stop>
    ensures found { IfOk result (reading.Is (words_of tokens.now)) }
    ensures only { (p : Phrase77) → IsExpression77 p → words_of tokens.now ≡ written77 p → GivesWhole result p }
{
    match read(alloc, tokens) {
        Ok((operand, rest)) => {
            if rest.is_empty() {
                Ok(operand)
            } else {
                Err(Stop::Syntax)
            }
        }
        Err(stop) => Err(stop),
    }
}

// The characters as one expression.
fn read_chars(alloc: Global, chars: &[u8]) -> Result<Expr, Unread>
    ensures read { IfOk result (λ e. ReadsAs chars.now (expression_of e)) }
    ensures only { (p : Phrase77) → Spells chars.now p → Answers result p }
    ensures wide { IsErrOf result Unread.WideLiteral → IsSpelled chars.now }
    ensures deep { IsErrOf result Unread.Deep → IsSpelled chars.now }
{
    let symbols = squeeze(alloc, chars)?;
    let tokens = words(alloc, symbols.as_slice())?;
    let operand = whole(alloc, tokens.as_slice())?;
    if has_wide(tokens.as_slice()) {
        return Err(Unread::WideLiteral);
    }
    if operand.depth > EXPRESSION_DEPTH_77 {
        return Err(Unread::Deep);
    }
    Ok(operand.tree)
}

/// Reads the characters of a statement, or of a part of it, as one expression (ANSI X3.9-1978, section 6).
///
/// A name with a list is an element, since a call looks alike.
#[tactic(auto, using(crate::proofs::ReadingLaws::printing))]
pub fn expression(alloc: Global, chars: &[u8]) -> Result<Expr, Unread>
    // What is read is so written.
    ensures read { IfOk result (λ e. ReadsAs chars.now (expression_of e)) }
    ensures source { IfOk result (λ e. IsSource (expression_of e)) }
    ensures wide { IsErrOf result Unread.WideLiteral → IsSpelled chars.now }
    ensures deep { IsErrOf result Unread.Deep → IsSpelled chars.now }

    // What is so written is read, in one way alone, or is refused by the first cause that holds.
    ensures only { (p : Phrase77) → Spells chars.now p → Answers result p }

    // A tree's own text is read as that tree, unless it is too deep.
    ensures printed { (e : Expression) → IsSource e → chars.now ≡ printed e → ReadsBack result e }
{
    read_chars(alloc, chars)
}
