//! The words of a text without blanks.
ghost use Rattle.std.specs.Prelude.{◌≡◌, ◌^◌, ◌<◌, ◌+◌, ◌*◌, ◌-◌, ◌∷◌, List, pos, Some, None, IfSome, IfOk, IsNone};
ghost use Rattle.std.specs.Prelude.{IsTrue};
ghost use Rattle.f77_grammar.specs.expressions.Words as words;
ghost use Rattle.f77_grammar.specs.expressions.Spelling as spelling;
ghost use Rattle.f77_grammar.specs.expressions.Spelling.{Stops77, AreWords77};
ghost use Rattle.f77_grammar.specs.expressions.Squeezing as squeezing;
ghost use Rattle.f77_expressions.specs.Lexing as lexing;
ghost use Rattle.f77_expressions.specs.Literals as literals;
ghost use Rattle.f77_expressions.specs.Symbols.{symbols_of};
ghost use Rattle.f77_expressions.specs.Tokens.{word_of};
ghost use Rattle.f77_expressions.specs.Fronts.{NextChar, narrow, BeginsWithLetter, BeginsWith, NameOption, Strips};
ghost use Rattle.f77_expressions.specs.Fronts.{FrontOption, FrontResult, AfterChar, GivesWords};
ghost use Rattle.f77_expressions.specs.Views.{words_of};
ghost use Rattle.reading.specs.Characters as characters;

use crate::symbols::Symbol;
use crate::tokens::Token;
use reading::Stop;
use std::alloc::Global;
use tree::{GREATEST_LITERAL, Name, Op, copy_text};

fn is_letter(c: u8) -> bool
    ensures { result ≡ characters.is_letter c }
{
    c.is_ascii_uppercase()
}

fn is_digit(c: u8) -> bool
    ensures { result ≡ characters.is_digit c }
{
    c.is_ascii_digit()
}

fn is_letter_or_digit(c: u8) -> bool
    ensures { result ≡ spelling.is_letter_or_digit c }
{
    is_letter(c) || is_digit(c)
}

/// The digit at the front, and what follows it.
pub fn next_digit(text: &[Symbol]) -> Option<(u8, &[Symbol])>
    ensures { NextChar characters.is_digit result (symbols_of text.now) }
{
    match text {
        [Symbol::Char(c), rest @ ..] if is_digit(*c) => Some((*c, rest)),
        _ => None,
    }
}

/// The letter or digit at the front, and what follows it.
pub fn next_letter_or_digit(text: &[Symbol]) -> Option<(u8, &[Symbol])>
    ensures { NextChar spelling.is_letter_or_digit result (symbols_of text.now) }
{
    match text {
        [Symbol::Char(c), rest @ ..] if is_letter_or_digit(*c) => Some((*c, rest)),
        _ => None,
    }
}

// A literal's value with one more digit, where it is within 2^127-1.
fn appended(value: u128, digit: u8) -> Option<u128>
    requires { IsTrue (characters.is_digit digit) }
    ensures { result ≡ narrow (10 * value + (digit - 48)) }
{
    let units = u128::from(digit - b'0');
    if value > (GREATEST_LITERAL as u128 - units) / 10 {
        return None;
    }
    Some(10 * value + units)
}

fn with_digit(value: Option<u128>, digit: u8) -> Option<u128>
    requires { IsTrue (characters.is_digit digit) }
    ensures { result ≡ literals.with_digit value digit }
{
    match value {
        Some(value) => appended(value, digit),
        None => None,
    }
}

fn number(value: u128) -> Token
    requires { value < 2 ^ 127 }
    ensures { word_of result ≡ words.Number (pos value) }
{
    Token::Number(value as i128)
}

// The literal at the front, which begins with a digit, and what follows it.
#[tactic(auto, using(crate::proofs::LiteralLaws::literals))]
fn literal(text: &[Symbol]) -> (Token, &[Symbol])
    ensures { lexing.literal (lexing.run_of characters.is_digit (symbols_of text.now))
        ≡ Some (record { word = word_of result.0; rest = symbols_of result.1.now }) }
{
    let mut rest = text;
    let mut value = Some(0);
    'digits: while let Some((digit, tail)) = next_digit(rest) {
        value = with_digit(value, digit);
        rest = tail;
    }
    match value {
        Some(value) => (number(value), rest),
        None => (Token::Wide, rest),
    }
}

const NAME: usize = 6;

// The name at the front, which begins with a letter, and what follows it; none where it is longer than six characters.
#[tactic(auto, using(crate::proofs::NameLaws::naming))]
fn name(text: &[Symbol]) -> Option<(Name, &[Symbol])>
    requires { BeginsWithLetter (symbols_of text.now) }
    ensures { NameOption result (lexing.run_of spelling.is_letter_or_digit (symbols_of text.now)) }
{
    let mut bytes = [0; NAME];
    let mut len = 0;
    let mut rest = text;
    'letters: while let Some((c, tail)) = next_letter_or_digit(rest) {
        if len == NAME {
            return None;
        }
        bytes[len] = c;
        len += 1;
        rest = tail;
    }
    let name = Name::read(&bytes[..len])?;
    Some((name, rest))
}

// The word of a name, and what follows it: a parenthesis directly behind the name belongs to it.
fn named(name: Name, rest: &[Symbol]) -> (Token, &[Symbol])
    ensures { lexing.named name (symbols_of rest.now)
        ≡ Some (record { word = word_of result.0; rest = symbols_of result.1.now }) }
{
    match rest {
        [Symbol::Char(b'('), tail @ ..] => (Token::Head(name), tail),
        _ => (Token::Name(name), rest),
    }
}

// What follows a character, where the text begins with it.
fn after(c: u8, text: &[Symbol]) -> Option<&[Symbol]>
    ensures { AfterChar c result (symbols_of text.now) }
{
    match text {
        [Symbol::Char(first), rest @ ..] if *first == c => Some(rest),
        _ => None,
    }
}

/// What follows the characters of a word, where the text begins with them.
#[tactic(auto, using(crate::proofs::NameLaws::stripping))]
pub fn strip<'a>(word: &[u8], text: &'a [Symbol]) -> Option<&'a [Symbol]>
    ensures { Strips result (lexing.strip word.now (symbols_of text.now)) }
{
    let mut rest = text;
    'stripping: for c in word {
        let Some(tail) = after(*c, rest) else {
            return None;
        };
        rest = tail;
    }
    Some(rest)
}

// The first of the words that the text begins with.
macro_rules! first_word {
    ($text:expr; $($spelling:literal => $token:expr,)*) => {{
        $(
            if let Some(rest) = strip($spelling, $text) {
                return Some(($token, rest));
            }
        )*
        None
    }};
}

// The first of the operators that the text begins with.
macro_rules! first_operator {
    ($text:expr; $($op:ident),*) => {{
        $(
            if let Some(rest) = strip(Op::$op.spell77().as_bytes(), $text) {
                return Some((Token::Operator(Op::$op), rest));
            }
        )*
        None
    }};
}

// The operator at the front, and what follows it. A longer one stands before one that begins it, and a minus sign is
// Sub.
fn operator(text: &[Symbol]) -> Option<(Token, &[Symbol])>
    ensures { FrontOption result (lexing.first_of lexing.operators (symbols_of text.now)) }
{
    first_operator!(text; Pow, Mul, Div, Add, Sub, Lt, Le, Eq, Ne, Gt, Ge, Not, And, Or, Eqv, Neqv)
}

// A mark or a truth value.
fn mark(text: &[Symbol]) -> Option<(Token, &[Symbol])>
    ensures { FrontOption result (lexing.first_of lexing.marks (symbols_of text.now)) }
{
    first_word!(text;
        b"(" => Token::Open,
        b")" => Token::Close,
        b"," => Token::Comma,
        b"=" => Token::Equals,
        b":" => Token::Colon,
        b".TRUE." => Token::Truth(true),
        b".FALSE." => Token::Truth(false),
    )
}

// The word of characters at the front, and what follows it.
fn word_of_chars(text: &[Symbol], first: u8) -> Option<(Token, &[Symbol])>
    requires { BeginsWith first (symbols_of text.now) }
    ensures { FrontOption result (lexing.word_by (characters.is_digit first) (characters.is_letter first)
        (symbols_of text.now)) }
{
    if is_digit(first) {
        return Some(literal(text));
    }
    if is_letter(first) {
        let Some((name, rest)) = name(text) else {
            return None;
        };
        return Some(named(name, rest));
    }
    match operator(text) {
        Some(front) => Some(front),
        None => mark(text),
    }
}

// The word at the front, and what follows it.
fn word(alloc: Global, text: &[Symbol]) -> Result<(Token, &[Symbol]), Stop>
    ensures { FrontResult result (lexing.word (symbols_of text.now)) }
{
    match text {
        [] => Err(Stop::Syntax),
        [Symbol::Char(first), ..] => match word_of_chars(text, *first) {
            Some(front) => Ok(front),
            None => Err(Stop::Syntax),
        },
        [Symbol::Text(constant), rest @ ..] => Ok((
            Token::Constant(copy_text(constant, alloc)?),
            rest,
        )),
        [Symbol::Broken, ..] => Err(Stop::Syntax),
    }
}

/// The words of a text.
#[tactic(auto, using(crate::proofs::WordsLaws::wording))]
pub fn words(alloc: Global, text: &[Symbol]) -> Result<Vec<Token>, Stop>
    ensures found { IfOk result (λ tokens. AreWords77 (symbols_of text.now) (words_of tokens.items)) }
    ensures only { (ws : List words.Word77) → AreWords77 (symbols_of text.now) ws → GivesWords result ws }
{
    let mut tokens = Vec::new(alloc);
    let mut rest = text;
    'wording: while !rest.is_empty() {
        let (token, tail) = word(alloc, rest)?;
        tokens.push(token)?;
        rest = tail;
    }
    Ok(tokens)
}
