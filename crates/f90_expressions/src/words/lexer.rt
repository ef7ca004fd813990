//! The words of a statement.
ghost use Rattle.std.specs.Prelude.{◌≡◌, ◌==◌, List, Some, IfOk, not};
ghost use Rattle.f90_grammar.specs.Words as grammar;
ghost use Rattle.f90_grammar.specs.Words.{HasWords, AreWords90};
ghost use Rattle.f90_expressions.specs.words.Lexing as lexing;
ghost use Rattle.f90_expressions.specs.words.Symbols.{symbols_of};
ghost use Rattle.f90_expressions.specs.words.Tokens.{word_of, words_of};
ghost use Rattle.f90_expressions.specs.words.Fronts.{NextChar, BeginsWithLetter, BeginsWith, NameOption, DigitsResult};
ghost use Rattle.f90_expressions.specs.words.Fronts.{Strips, FrontOption, FrontResult, AfterChar, GivesWords};
ghost use Rattle.reading.specs.Characters as characters;

use crate::words::symbols::{Symbol, symbols};
use crate::words::tokens::Token;
use reading::Stop;
use std::alloc::Global;
use tree::{Name, Op, Seq, copy_text};

fn is_digit(c: u8) -> bool
    ensures { result ≡ characters.is_digit c }
{
    c.is_ascii_digit()
}

fn is_letter(c: u8) -> bool
    ensures { result ≡ characters.is_letter c }
{
    c.is_ascii_uppercase()
}

// Of names.
fn goes_on(c: u8) -> bool
    ensures { result ≡ grammar.goes_on90 c }
{
    is_letter(c) || is_digit(c) || c == b'_'
}

// The digit at the front, and what follows it.
fn next_digit(text: &[Symbol]) -> Option<(u8, &[Symbol])>
    ensures { NextChar characters.is_digit result (symbols_of text.now) }
{
    match text {
        [Symbol::Char(c), rest @ ..] if is_digit(*c) => Some((*c, rest)),
        _ => None,
    }
}

// The character of a name at the front, and what follows it.
fn next_of_name(text: &[Symbol]) -> Option<(u8, &[Symbol])>
    ensures { NextChar grammar.goes_on90 result (symbols_of text.now) }
{
    match text {
        [Symbol::Char(c), rest @ ..] if goes_on(*c) => Some((*c, rest)),
        _ => None,
    }
}

// The text from the first symbol that is no gap.
fn skip(text: &[Symbol]) -> &[Symbol]
    ensures { symbols_of result.now ≡ lexing.skip (symbols_of text.now) }
{
    let mut rest = text;
    'gaps: while let [Symbol::Gap, tail @ ..] = rest {
        rest = tail;
    }
    rest
}

// The digits at the front, and what follows them.
#[tactic(auto, using(crate::proofs::OfWords::RunLaws::numbering))]
fn digits(alloc: Global, text: &[Symbol]) -> Result<(Seq<u8>, &[Symbol]), Stop>
    ensures { DigitsResult result (lexing.run_of characters.is_digit (symbols_of text.now)) }
{
    let mut digits = Seq::new(alloc);
    let mut rest = text;
    'digits: while let Some((digit, tail)) = next_digit(rest) {
        digits.push(digit)?;
        rest = tail;
    }
    Ok((digits, rest))
}

// The number at the front, and what follows it, which is no character of a name.
fn number(alloc: Global, text: &[Symbol]) -> Result<(Token, &[Symbol]), Stop>
    ensures { FrontResult result (lexing.number (lexing.run_of characters.is_digit (symbols_of text.now))) }
{
    let (digits, rest) = digits(alloc, text)?;
    match next_of_name(rest) {
        Some(_) => Err(Stop::Syntax),
        None => Ok((Token::Digits(digits), rest)),
    }
}

const NAME: usize = 31;

// The name at the front, which begins with a letter, and what follows it; none where it is too long.
#[tactic(auto, using(crate::proofs::OfWords::RunLaws::naming))]
fn name(text: &[Symbol]) -> Option<(Name, &[Symbol])>
    requires { BeginsWithLetter (symbols_of text.now) }
    ensures { NameOption result (lexing.run_of grammar.goes_on90 (symbols_of text.now)) }
{
    let mut bytes = [0; NAME];
    let mut len = 0;
    let mut rest = text;
    'letters: while let Some((c, tail)) = next_of_name(rest) {
        if len == NAME {
            return None;
        }
        bytes[len] = c;
        len += 1;
        rest = tail;
    }
    let name = Name::read(&bytes[..len])?;
    Some((name, rest))
}

fn begins_with_slash(text: &[Symbol]) -> bool
    ensures { lexing.stops (λ c. c == 47) (symbols_of text.now) ≡ not result }
{
    matches!(text, [Symbol::Char(b'/'), ..])
}

// The word of a name, and what follows it: a parenthesis behind the name belongs to it, but for one that begins a list.
fn named(name: Name, rest: &[Symbol]) -> (Token, &[Symbol])
    ensures { lexing.named name (symbols_of rest.now)
        ≡ Some (record { word = word_of result.0; rest = symbols_of result.1.now }) }
{
    match skip(rest) {
        [Symbol::Char(b'('), tail @ ..] if !begins_with_slash(tail) => (Token::Head(name), tail),
        _ => (Token::Name(name), rest),
    }
}

// What follows a character, where the text begins with it.
fn after(c: u8, text: &[Symbol]) -> Option<&[Symbol]>
    ensures { AfterChar c result (symbols_of text.now) }
{
    match text {
        [Symbol::Char(first), rest @ ..] if *first == c => Some(rest),
        _ => None,
    }
}

// What follows the characters of a word, where the text begins with them.
#[tactic(auto, using(crate::proofs::OfWords::RunLaws::stripping))]
fn strip<'a>(word: &[u8], text: &'a [Symbol]) -> Option<&'a [Symbol]>
    ensures { Strips result (lexing.strip word.now (symbols_of text.now)) }
{
    let mut rest = text;
    'stripping: for c in word {
        let Some(tail) = after(*c, rest) else {
            return None;
        };
        rest = tail;
    }
    Some(rest)
}

fn is_among(chars: &[u8], c: u8) -> bool
    ensures { result ≡ lexing.is_among chars.now c }
{
    chars.iter().any(|char| c == *char)
}

// Whether the text begins with none of the characters.
fn stops(barred: &[u8], text: &[Symbol]) -> bool
    ensures { result ≡ lexing.stops (lexing.is_among barred.now) (symbols_of text.now) }
{
    match text {
        [Symbol::Char(c), ..] => !is_among(barred, *c),
        _ => true,
    }
}

// What follows a word, where the text begins with it and none of the barred characters is next.
#[tactic(auto, using(crate::proofs::OfWords::LexingLaws::unless_is))]
fn behind<'a>(spelling: &[u8], barred: &[u8], text: &'a [Symbol]) -> Option<&'a [Symbol]>
    ensures { Strips result (lexing.behind_fixed spelling.now barred.now (symbols_of text.now)) }
{
    let Some(rest) = strip(spelling, text) else {
        return None;
    };
    if stops(barred, rest) {
        Some(rest)
    } else {
        None
    }
}

// The first of the words that the text begins with.
macro_rules! first_word {
    ($text:expr; $($spelling:literal $barred:literal => $token:expr,)*) => {{
        $(
            if let Some(rest) = behind($spelling, $barred, $text) {
                return Some(($token, rest));
            }
        )*
        None
    }};
}

fn mark(text: &[Symbol]) -> Option<(Token, &[Symbol])>
    ensures { FrontOption result (lexing.first_of lexing.marks (symbols_of text.now)) }
{
    first_word!(text;
        b"(/" b"" => Token::OpenList,
        b"(" b"/" => Token::Open,
        b"/)" b"" => Token::CloseList,
        b")" b"" => Token::Close,
        b"," b"" => Token::Comma,
        b"::" b"" => Token::Colons,
        b":" b":" => Token::Colon,
        b"=" b"=" => Token::Equals,
    )
}

fn sign(text: &[Symbol]) -> Option<(Token, &[Symbol])>
    ensures { FrontOption result (lexing.first_of lexing.signs (symbols_of text.now)) }
{
    first_word!(text;
        b"**" b"" => Token::Operator(Op::Pow),
        b"*" b"*" => Token::Operator(Op::Mul),
        b"/=" b"" => Token::Operator(Op::Ne),
        b"/" b"=)" => Token::Operator(Op::Div),
        b"+" b"" => Token::Operator(Op::Add),
        b"-" b"" => Token::Operator(Op::Sub),
        b"<=" b"" => Token::Operator(Op::Le),
        b"<" b"=" => Token::Operator(Op::Lt),
        b">=" b"" => Token::Operator(Op::Ge),
        b">" b"=" => Token::Operator(Op::Gt),
        b"==" b"" => Token::Operator(Op::Eq),
    )
}

fn dotted(text: &[Symbol]) -> Option<(Token, &[Symbol])>
    ensures { FrontOption result (lexing.first_of lexing.dotted (symbols_of text.now)) }
{
    first_word!(text;
        b".TRUE." b"" => Token::Truth(true),
        b".FALSE." b"" => Token::Truth(false),
        b".LT." b"=" => Token::Operator(Op::Lt),
        b".LE." b"" => Token::Operator(Op::Le),
        b".EQ." b"" => Token::Operator(Op::Eq),
        b".NE." b"" => Token::Operator(Op::Ne),
        b".GT." b"=" => Token::Operator(Op::Gt),
        b".GE." b"" => Token::Operator(Op::Ge),
        b".NOT." b"" => Token::Operator(Op::Not),
        b".AND." b"" => Token::Operator(Op::And),
        b".OR." b"" => Token::Operator(Op::Or),
        b".EQV." b"" => Token::Operator(Op::Eqv),
        b".NEQV." b"" => Token::Operator(Op::Neqv),
    )
}

fn fixed_word(text: &[Symbol]) -> Option<(Token, &[Symbol])>
    ensures { FrontOption result (lexing.fixed_word (symbols_of text.now)) }
{
    if let Some(front) = mark(text) {
        return Some(front);
    }
    if let Some(front) = sign(text) {
        return Some(front);
    }
    dotted(text)
}

// The word of characters at the front, and what follows it.
fn word_of_chars(alloc: Global, text: &[Symbol], first: u8) -> Result<(Token, &[Symbol]), Stop>
    requires { BeginsWith first (symbols_of text.now) }
    ensures { FrontResult result (lexing.word_by (characters.is_digit first) (characters.is_letter first)
        (symbols_of text.now)) }
{
    if is_digit(first) {
        return number(alloc, text);
    }
    if is_letter(first) {
        let Some((name, rest)) = name(text) else {
            return Err(Stop::Syntax);
        };
        return Ok(named(name, rest));
    }
    match fixed_word(text) {
        Some(front) => Ok(front),
        None => Err(Stop::Syntax),
    }
}

// The word at the front, and what follows it.
fn word(alloc: Global, text: &[Symbol]) -> Result<(Token, &[Symbol]), Stop>
    ensures { FrontResult result (lexing.word (symbols_of text.now)) }
{
    match text {
        [] => Err(Stop::Syntax),
        [Symbol::Char(first), ..] => word_of_chars(alloc, text, *first),
        [Symbol::Gap, ..] => Err(Stop::Syntax),
        [Symbol::Text(constant), rest @ ..] => Ok((
            Token::Constant(copy_text(constant, alloc)?),
            rest,
        )),
    }
}

// The words of a text.
#[tactic(auto, using(crate::proofs::OfWords::WordsLaws::wording))]
fn words_in(alloc: Global, text: &[Symbol]) -> Result<Seq<Token>, Stop>
    ensures found { IfOk result (λ tokens. AreWords90 (symbols_of text.now) (words_of tokens)) }
    ensures only { (ws : List grammar.Word90) → AreWords90 (symbols_of text.now) ws → GivesWords result ws }
{
    let mut tokens = Seq::new(alloc);
    let mut rest = skip(text);
    'wording: while !rest.is_empty() {
        let (token, tail) = word(alloc, rest)?;
        tokens.push(token)?;
        rest = skip(tail);
    }
    Ok(tokens)
}

/// The words of a statement's characters, where they have some.
pub fn words(alloc: Global, chars: &[u8]) -> Result<Seq<Token>, Stop>
    ensures found { IfOk result (λ tokens. HasWords chars.now (words_of tokens)) }
    ensures only { (ws : List grammar.Word90) → HasWords chars.now ws → GivesWords result ws }
{
    let symbols = symbols(alloc, chars)?;
    words_in(alloc, symbols.as_slice())
}
