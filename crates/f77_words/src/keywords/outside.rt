//! What stands outside parentheses.
ghost use Rattle.std.specs.Prelude.{◌≡◌, false};
ghost use Rattle.f77_grammar.specs.statements.Recognition.{has_equals_outside};
ghost use Rattle.f77_expressions.specs.Symbols.{symbol_of, symbols_of};
ghost use Rattle.f77_words.specs.keywords.Outside.{has_comma_outside, character_is, equals_of, comma_of};

use crate::keywords::parentheses::Bracket;
use f77_expressions::Symbol;

/// Whether an equals sign stands outside parentheses, and whether a comma outside parentheses comes after one. A
/// closing parenthesis
/// without partner counts nothing.
#[derive(Clone, Copy, Debug, PartialEq, Eq)]
pub struct Outside {
    pub equals: bool,
    pub comma: bool,
}

fn is_char(symbol: &Symbol, c: u8) -> bool
    ensures { result ≡ character_is c (symbol_of symbol.now) }
{
    match symbol {
        Symbol::Char(d) => *d == c,
        Symbol::Text(_) => false,
        Symbol::Broken => false,
    }
}

impl Outside {
    // With a symbol that stands outside parentheses and is none.
    fn with(self, symbol: &Symbol) -> Outside
        ensures equals { result.equals ≡ equals_of self.equals (symbol_of symbol.now) }
        ensures comma { result.comma ≡ comma_of self.comma self.equals (symbol_of symbol.now) }
    {
        Outside {
            equals: self.equals || is_char(symbol, b'='),
            comma: self.comma || self.equals && is_char(symbol, b','),
        }
    }

    /// What stands outside parentheses in the text.
    pub fn of(text: &[Symbol]) -> Outside
        ensures equals { result.equals ≡ has_equals_outside (symbols_of text.now) 0 }
        ensures comma { result.comma ≡ has_comma_outside (symbols_of text.now) 0 false }
    {
        let mut found = Outside {
            equals: false,
            comma: false,
        };
        let mut opened: usize = 0;
        'searching: for symbol in text {
            match Bracket::of(symbol) {
                Bracket::Opening => opened += 1,
                Bracket::Closing => opened = opened.saturating_sub(1),
                Bracket::Neither if opened == 0 => found = found.with(symbol),
                Bracket::Neither => {}
            }
        }
        found
    }
}
