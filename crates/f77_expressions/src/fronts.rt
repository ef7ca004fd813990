//! The word at the front of words, where one is looked for.
ghost use Rattle.std.specs.Prelude.{◌≡◌};
ghost use Rattle.f77_grammar.specs.expressions.Words as words;
ghost use Rattle.f77_expressions.specs.Views.{words_of};
ghost use Rattle.f77_expressions.specs.TokenFronts.{After, NameFront, HeadFront, begins_with_name};

use crate::tokens::Token;
use tree::Name;

/// What follows a comma.
pub fn after_comma(tokens: &[Token]) -> Option<&[Token]>
    ensures { After words.Comma result (words_of tokens.now) }
{
    match tokens {
        [Token::Comma, rest @ ..] => Some(rest),
        _ => None,
    }
}

/// What follows an equals sign.
pub fn after_equals(tokens: &[Token]) -> Option<&[Token]>
    ensures { After words.Equals result (words_of tokens.now) }
{
    match tokens {
        [Token::Equals, rest @ ..] => Some(rest),
        _ => None,
    }
}

/// What follows a colon.
pub fn after_colon(tokens: &[Token]) -> Option<&[Token]>
    ensures { After words.Colon result (words_of tokens.now) }
{
    match tokens {
        [Token::Colon, rest @ ..] => Some(rest),
        _ => None,
    }
}

/// What follows an opening parenthesis that stands behind no name.
pub fn after_open(tokens: &[Token]) -> Option<&[Token]>
    ensures { After words.Open result (words_of tokens.now) }
{
    match tokens {
        [Token::Open, rest @ ..] => Some(rest),
        _ => None,
    }
}

/// What follows a closing parenthesis.
pub fn after_close(tokens: &[Token]) -> Option<&[Token]>
    ensures { After words.Close result (words_of tokens.now) }
{
    match tokens {
        [Token::Close, rest @ ..] => Some(rest),
        _ => None,
    }
}

/// A name without a parenthesis behind it, and what follows it.
pub fn after_name(tokens: &[Token]) -> Option<(Name, &[Token])>
    ensures { NameFront result (words_of tokens.now) }
{
    match tokens {
        [Token::Name(name), rest @ ..] => Some((*name, rest)),
        _ => None,
    }
}

/// A name with the parenthesis behind it, and what follows that.
pub fn after_head(tokens: &[Token]) -> Option<(Name, &[Token])>
    ensures { HeadFront result (words_of tokens.now) }
{
    match tokens {
        [Token::Head(name), rest @ ..] => Some((*name, rest)),
        _ => None,
    }
}

/// Whether a name stands at the front, with a parenthesis behind it or without one.
pub fn begins_with_name(tokens: &[Token]) -> bool
    ensures { result ≡ begins_with_name (words_of tokens.now) }
{
    match tokens {
        [Token::Name(_), ..] => true,
        [Token::Head(_), ..] => true,
        _ => false,
    }
}
