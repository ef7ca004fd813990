//! Parentheses of a text. Those in a character constant don't count, since a constant is one symbol.
ghost use Rattle.std.specs.Prelude.{◌≡◌};
ghost use Rattle.f77_grammar.specs.statements.Recognition.{cut_at_close, bracket_of};
ghost use Rattle.f77_grammar.specs.expressions.Squeezing.{Char};
ghost use Rattle.f77_expressions.specs.Symbols.{symbol_of, symbols_of};
ghost use Rattle.f77_words.specs.keywords.Parentheses.{halves_of, bracket_view};

use f77_expressions::Symbol;

/// What a symbol does to the number of open parentheses.
#[derive(Clone, Copy, Debug, PartialEq, Eq)]
pub(crate) enum Bracket {
    Opening,
    Closing,
    Neither,
}

impl Bracket {
    pub(crate) fn of(symbol: &Symbol) -> Bracket
        ensures { bracket_view result ≡ bracket_of (symbol_of symbol.now) }
    {
        match symbol {
            Symbol::Char(c) => Bracket::of_char(*c),
            Symbol::Text(_) => Bracket::Neither,
            Symbol::Broken => Bracket::Neither,
        }
    }

    fn of_char(c: u8) -> Bracket
        ensures { bracket_view result ≡ bracket_of (Char c) }
    {
        if c == b'(' {
            Bracket::Opening
        } else if c == b')' {
            Bracket::Closing
        } else {
            Bracket::Neither
        }
    }
}

/// A text cut at the parenthesis that closes one opened before it: what stands in front of it, and what behind it.
pub fn cut_at_close(text: &[Symbol]) -> Option<(&[Symbol], &[Symbol])>
    ensures { halves_of result ≡ cut_at_close (symbols_of text.now) }
{
    let mut opened: usize = 0;
    'cutting: for (i, symbol) in text.iter().enumerate() {
        match Bracket::of(symbol) {
            Bracket::Opening => opened += 1,
            Bracket::Closing if opened == 0 => return Some((&text[..i], &text[i + 1..])),
            Bracket::Closing => opened -= 1,
            Bracket::Neither => {}
        }
    }
    None
}
