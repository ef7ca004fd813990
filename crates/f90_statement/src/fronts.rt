//! The words in front of a statement.
ghost use Rattle.std.specs.Prelude.{◌≡◌, ◌∷◌, ◌++◌, [], ◌↔◌, IsTrue};
ghost use Rattle.f90_grammar.specs.Forms.{Either, IsEmptyTransfer};
ghost use Rattle.f90_grammar.specs.Words as words;
ghost use Rattle.f90_expressions.specs.words.Tokens.{words_of};
ghost use Rattle.f90_statement.specs.items.parts.Fronts.{After};
ghost use Rattle.f90_statement.specs.Fronts.{AfterEither, AfterEitherHead, AfterTransfer, IsLoneName, IsClosedName};
ghost use Rattle.f90_statement.specs.Fronts.{IsLabelValue, IsLoneLabel, IsLabelled, AfterFormat, AfterUnit};
ghost use Rattle.f90_statement.specs.Fronts.{IsLoopFront, IsAllocateFront, IsDigitsFront};
ghost use Rattle.tree.specs.declared.ops.Op.TheVariants.{Add, Sub, Mul};

use crate::items::parts::{Separator, after, after_head, after_name};
use f90_expressions::literal;
use f90_expressions::words::Token;
use tree::{Name, Op, Seq};

// Whether the name is the keyword.
fn spells(name: Name, keyword: &[u8]) -> bool
    ensures { IsTrue result ↔ (name ≡ keyword.now) }
{
    name.text() == keyword
}

/// What follows a keyword.
pub(crate) fn after_keyword<'a>(keyword: &[u8], tokens: &'a [Token]) -> Option<&'a [Token]>
    ensures { After (words.Name keyword.now) result (words_of tokens.now) }
{
    let Some((name, rest)) = after_name(tokens) else {
        return None;
    };
    if spells(name, keyword) {
        Some(rest)
    } else {
        None
    }
}

/// What follows a keyword with a parenthesis.
pub(crate) fn after_head_keyword<'a>(keyword: &[u8], tokens: &'a [Token]) -> Option<&'a [Token]>
    ensures { After (words.Head keyword.now) result (words_of tokens.now) }
{
    let Some((name, rest)) = after_head(tokens) else {
        return None;
    };
    if spells(name, keyword) {
        Some(rest)
    } else {
        None
    }
}

/// What follows two keywords, or the one that they make.
pub(crate) fn after_keywords<'a>(
    first: &[u8],
    second: &[u8],
    both: &[u8],
    tokens: &'a [Token],
) -> Option<&'a [Token]>
    requires { both.now ≡ first.now ++ second.now }
    ensures { AfterEither first.now second.now result (words_of tokens.now) }
{
    if let Some(rest) = after_keyword(both, tokens) {
        return Some(rest);
    }
    let rest = after_keyword(first, tokens)?;
    after_keyword(second, rest)
}

/// The same with a parenthesis behind them.
pub(crate) fn after_head_keywords<'a>(
    first: &[u8],
    second: &[u8],
    both: &[u8],
    tokens: &'a [Token],
) -> Option<&'a [Token]>
    requires { both.now ≡ first.now ++ second.now }
    ensures { AfterEitherHead first.now second.now result (words_of tokens.now) }
{
    if let Some(rest) = after_head_keyword(both, tokens) {
        return Some(rest);
    }
    let rest = after_keyword(first, tokens)?;
    after_head_keyword(second, rest)
}

/// Whether the words are a keyword alone.
pub(crate) fn is_keyword(keyword: &[u8], tokens: &[Token]) -> bool
    ensures { IsTrue result ↔ (words_of tokens.now ≡ words.Name keyword.now ∷ []) }
{
    match lone_name(tokens) {
        Some(name) => spells(name, keyword),
        None => false,
    }
}

/// Whether the words are two keywords alone.
pub(crate) fn are_two_keywords(first: &[u8], second: &[u8], tokens: &[Token]) -> bool
    ensures { IsTrue result ↔ (words_of tokens.now ≡ words.Name first.now ∷ (words.Name second.now ∷ [])) }
{
    match after_keyword(first, tokens) {
        Some(rest) => is_keyword(second, rest),
        None => false,
    }
}

/// Whether the words are two keywords alone, or the one that they make.
pub(crate) fn are_keywords(first: &[u8], second: &[u8], both: &[u8], tokens: &[Token]) -> bool
    requires { both.now ≡ first.now ++ second.now }
    ensures { IsTrue result ↔ Either first.now second.now [] (words_of tokens.now) }
{
    is_keyword(both, tokens) || are_two_keywords(first, second, tokens)
}

/// What follows a plus sign.
pub(crate) fn after_plus(tokens: &[Token]) -> Option<&[Token]>
    ensures { After (words.Operator Add) result (words_of tokens.now) }
{
    match tokens {
        [Token::Operator(Op::Add), rest @ ..] => Some(rest),
        _ => None,
    }
}

/// What follows a minus sign.
pub(crate) fn after_minus(tokens: &[Token]) -> Option<&[Token]>
    ensures { After (words.Operator Sub) result (words_of tokens.now) }
{
    match tokens {
        [Token::Operator(Op::Sub), rest @ ..] => Some(rest),
        _ => None,
    }
}

// What follows an asterisk.
fn after_asterisk(tokens: &[Token]) -> Option<&[Token]>
    ensures { After (words.Operator Mul) result (words_of tokens.now) }
{
    match tokens {
        [Token::Operator(Op::Mul), rest @ ..] => Some(rest),
        _ => None,
    }
}

// What follows a keyword and an asterisk.
fn after_format<'a>(keyword: &[u8], tokens: &'a [Token]) -> Option<&'a [Token]>
    ensures { AfterFormat keyword.now result (words_of tokens.now) }
{
    let rest = after_keyword(keyword, tokens)?;
    after_asterisk(rest)
}

// What follows a keyword and two asterisks in parentheses.
fn after_unit<'a>(keyword: &[u8], tokens: &'a [Token]) -> Option<&'a [Token]>
    ensures { AfterUnit keyword.now result (words_of tokens.now) }
{
    let rest = after_head_keyword(keyword, tokens)?;
    let rest = after_asterisk(rest)?;
    let rest = after(Separator::Comma, rest)?;
    let rest = after_asterisk(rest)?;
    after(Separator::Close, rest)
}

/// The list of READ or PRINT.
pub(crate) fn after_transfer<'a>(
    short: &[u8],
    long: &[u8],
    tokens: &'a [Token],
) -> Option<&'a [Token]>
    ensures { AfterTransfer short.now long.now result (words_of tokens.now) }
{
    if let Some(rest) = after_unit(long, tokens) {
        return Some(rest);
    }
    let rest = after_format(short, tokens)?;
    after(Separator::Comma, rest)
}

/// Whether the words are READ or PRINT without a list.
pub(crate) fn is_empty_transfer(short: &[u8], long: &[u8], tokens: &[Token]) -> bool
    ensures { IsTrue result ↔ IsEmptyTransfer short.now long.now (words_of tokens.now) }
{
    if let Some(rest) = after_unit(long, tokens) {
        return is_nothing(rest);
    }
    match after_format(short, tokens) {
        Some(rest) => is_nothing(rest),
        None => false,
    }
}

/// Whether no words are left.
pub(crate) fn is_nothing(tokens: &[Token]) -> bool
    ensures { IsTrue result ↔ (words_of tokens.now ≡ []) }
{
    tokens.is_empty()
}

/// The name that is the only word.
pub(crate) fn lone_name(tokens: &[Token]) -> Option<Name>
    ensures { IsLoneName result (words_of tokens.now) }
{
    match tokens {
        [Token::Name(name)] => Some(*name),
        _ => None,
    }
}

/// The name that stands alone before a closing parenthesis.
pub(crate) fn closed_name(tokens: &[Token]) -> Option<Name>
    ensures { IsClosedName result (words_of tokens.now) }
{
    match tokens {
        [Token::Name(name), Token::Close] => Some(*name),
        _ => None,
    }
}

const LABEL_DIGITS: usize = 5;

// The value of a label's digits, where they aren't too many.
#[tactic(auto, using(crate::proofs::LabelLaws::labels))]
fn label_value(digits: &Seq<u8>) -> Option<u32>
    ensures { IsLabelValue result digits.now }
{
    if digits.len() > LABEL_DIGITS {
        return None;
    }
    match literal(digits.as_slice()) {
        Some(value) => Some(value as u32),
        None => None,
    }
}

/// The value of the label that is the only word.
pub(crate) fn lone_label(tokens: &[Token]) -> Option<u32>
    ensures { IsLoneLabel result (words_of tokens.now) }
{
    match tokens {
        [Token::Digits(digits)] => label_value(digits),
        _ => None,
    }
}

/// The digits in front, where there are some, and what follows them.
pub(crate) fn after_digits(tokens: &[Token]) -> Option<(&Seq<u8>, &[Token])>
    ensures { IsDigitsFront result (words_of tokens.now) }
{
    match tokens {
        [Token::Digits(digits), rest @ ..] => Some((digits, rest)),
        _ => None,
    }
}

/// The value of the label of a CONTINUE.
#[tactic(auto, using(crate::proofs::LabelLaws::labels))]
pub(crate) fn continue_label(tokens: &[Token]) -> Option<u32>
    ensures { IsLabelled result (words_of tokens.now) }
{
    let Some((digits, rest)) = after_digits(tokens) else {
        return None;
    };
    if digits.is_empty() || !is_keyword(b"CONTINUE", rest) {
        return None;
    }
    label_value(digits)
}

/// The variable of a DO, and what follows its equals sign.
pub(crate) fn loop_front(tokens: &[Token]) -> Option<(Name, &[Token])>
    ensures { IsLoopFront result (words_of tokens.now) }
{
    let rest = after_keyword(b"DO", tokens)?;
    let Some((name, rest)) = after_name(rest) else {
        return None;
    };
    let rest = after(Separator::Equals, rest)?;
    Some((name, rest))
}

/// The name of an ALLOCATE, and what follows its parenthesis.
pub(crate) fn allocate_front(tokens: &[Token]) -> Option<(Name, &[Token])>
    ensures { IsAllocateFront result (words_of tokens.now) }
{
    let rest = after_head_keyword(b"ALLOCATE", tokens)?;
    after_head(rest)
}

/// Whether the words are the two parentheses that end an ALLOCATE.
pub(crate) fn ends_allocate(tokens: &[Token]) -> bool
    ensures { IsTrue result ↔ (words_of tokens.now ≡ words.Close ∷ (words.Close ∷ [])) }
{
    matches!(tokens, [Token::Close, Token::Close])
}
