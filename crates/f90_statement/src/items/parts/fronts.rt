//! The word at the front of words, where one is looked for.
ghost use Rattle.f90_expressions.specs.words.Tokens.{word_of, words_of};
ghost use Rattle.f90_statement.specs.items.parts.Fronts.{After, NameFront, HeadFront, IsThat, separator_word};

use f90_expressions::words::Token;
use tree::Name;

/// A mark between other words. `Open` is a parenthesis that stands behind no name.
#[derive(Clone, Copy, Debug, PartialEq, Eq)]
pub enum Separator {
    Open,
    Close,
    Comma,
    Equals,
    Colon,
    /// `::`
    Colons,
}

impl Separator {
    // Whether a word is this mark.
    fn is(self, token: &Token) -> bool
        ensures { IsThat result (word_of token.now) (separator_word self) }
    {
        match self {
            Separator::Open => matches!(token, Token::Open),
            Separator::Close => matches!(token, Token::Close),
            Separator::Comma => matches!(token, Token::Comma),
            Separator::Equals => matches!(token, Token::Equals),
            Separator::Colon => matches!(token, Token::Colon),
            Separator::Colons => matches!(token, Token::Colons),
        }
    }
}

/// A name without a parenthesis behind it, and what follows it.
pub fn after_name(tokens: &[Token]) -> Option<(Name, &[Token])>
    ensures { NameFront result (words_of tokens.now) }
{
    match tokens {
        [Token::Name(name), rest @ ..] => Some((*name, rest)),
        _ => None,
    }
}

/// A name with the parenthesis behind it, and what follows that.
pub fn after_head(tokens: &[Token]) -> Option<(Name, &[Token])>
    ensures { HeadFront result (words_of tokens.now) }
{
    match tokens {
        [Token::Head(name), rest @ ..] => Some((*name, rest)),
        _ => None,
    }
}

/// What follows the mark.
pub fn after(mark: Separator, tokens: &[Token]) -> Option<&[Token]>
    ensures { After (separator_word mark) result (words_of tokens.now) }
{
    match tokens {
        [first, rest @ ..] => { if mark.is(first) { Some(rest) } else { None } }
        _ => None,
    }
}
