//! Statements that begin with a condition: block IF and logical IF (ANSI X3.9-1978, sections 11.5 and 11.6).
ghost use Rattle.std.specs.Prelude.{◌≡◌, List, IfSome, IsTrue, ◌↔◌};
ghost use Rattle.f77_grammar.specs.expressions.Squeezing as squeezing;
ghost use Rattle.f77_grammar.specs.statements.Recognition.{BeginsWithLetter, IsConditional};
ghost use Rattle.f77_expressions.specs.Symbols.{symbols_of};
ghost use Rattle.f77_words.specs.keywords.Parentheses.{Gives};

use crate::keywords::parentheses::cut_at_close;
use f77_expressions::{Symbol, strip};

pub(crate) fn begins_with_letter(text: &[Symbol]) -> bool
    ensures { IsTrue result ↔ BeginsWithLetter (symbols_of text.now) }
{
    match text {
        [Symbol::Char(c), ..] => c.is_ascii_uppercase(),
        _ => false,
    }
}

/// Of a block IF or a logical IF, the condition and what follows its parenthesis.
pub fn conditional(text: &[Symbol]) -> Option<(&[Symbol], &[Symbol])>
    ensures found { IfSome result (λ r. IsConditional (symbols_of text.now) (symbols_of r.0.now) (symbols_of r.1.now)) }
    ensures only { (condition rest : List squeezing.Symbol77) → IsConditional (symbols_of text.now) condition rest
        → Gives result condition rest }
{
    let opened = strip(b"IF(", text)?;
    let (condition, rest) = cut_at_close(opened)?;
    if begins_with_letter(rest) {
        Some((condition, rest))
    } else {
        None
    }
}
