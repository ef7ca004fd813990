//! The parts of statements that are expressions: conditions, the sides of an assignment, extents.
ghost use Rattle.std.specs.Prelude.{◌≡◌, ◌++◌, ◌↔◌, IsTrue, List, IfOk, codes};
ghost use Rattle.f90_grammar.specs.Forms.{separated90, written_extent};
ghost use Rattle.reading.specs.Characters.{IsList};
ghost use Rattle.f90_grammar.specs.Phrases.{Phrase90, IsExpression90};
ghost use Rattle.f90_grammar.specs.Words as words;
ghost use Rattle.f90_expressions.specs.words.Tokens.{words_of};
ghost use Rattle.f90_expressions.specs.Reading.{IsMadeOf};
ghost use Rattle.f90_statement.specs.Reading.{Begins, BeginsWithList, BeginsWithCondition, IsThe, EndsItem, EndsList};
ghost use Rattle.f90_statement.specs.Reading.{Given, ReadsRight, ReadsSides, closed};
ghost use Rattle.f90_statement.specs.Fronts.{AfterExtent};
ghost use Rattle.f90_statement.specs.Views.{AreOf};

use crate::items::parts::{Separator, after, is_reference};
use f90_expressions::words::Token;
use f90_expressions::{Expression, read};
use reading::Stop;
use std::alloc::Global;
use tree::Seq;

/// A condition, and what follows the parenthesis that closes it.
#[tactic(auto, using(crate::proofs::PartLaws::conditions))]
pub(crate) fn condition(alloc: Global, tokens: &[Token]) -> Result<(Expression, &[Token]), Stop>
    ensures found { IfOk result (λ r. BeginsWithCondition (words_of tokens.now) r.0 (words_of r.1.now)) }
    ensures only { (p : Phrase90) (last : List words.Word90) → IsExpression90 p → words_of tokens.now ≡ closed p last
        → Given result (λ r. IsMadeOf r.0 p × (words_of r.1.now ≡ last)) }
{
    match read(alloc, tokens) {
        Ok((condition, rest)) => match after(Separator::Close, rest) {
            Some(rest) => Ok((condition, rest)),
            None => Err(Stop::Syntax),
        },
        Err(stop) => Err(stop),
    }
}

// The equals sign of an assignment and its right side.
#[tactic(auto, using(crate::proofs::PartLaws::rights))]
fn right_side(alloc: Global, tokens: &[Token]) -> Result<Expression, Stop>
    ensures { ReadsRight (words_of tokens.now) result }
{
    let Some(rest) = after(Separator::Equals, tokens) else {
        return Err(Stop::Syntax);
    };
    match read(alloc, rest) {
        Ok((right, rest)) => {
            if !rest.is_empty() {
                return Err(Stop::Syntax);
            }
            Ok(right)
        }
        Err(stop) => Err(stop),
    }
}

/// The sides of an assignment.
#[tactic(auto, using(crate::proofs::PartLaws::sides))]
pub(crate) fn sides(alloc: Global, tokens: &[Token]) -> Result<(Expression, Expression), Stop>
    ensures { ReadsSides (words_of tokens.now) result }
{
    match read(alloc, tokens) {
        Ok((left, rest)) => {
            if !is_reference(&left) {
                return Err(Stop::Syntax);
            }
            match right_side(alloc, rest) {
                Ok(right) => Ok((left, right)),
                Err(stop) => Err(stop),
            }
        }
        Err(stop) => Err(stop),
    }
}

fn is_one(digits: &Seq<u8>) -> bool
    ensures { IsTrue result ↔ (digits.now ≡ codes "1") }
{
    digits.as_slice() == b"1".as_slice()
}

// What stands behind the lower bound of an extent, which is 1, and its colon.
fn after_one(tokens: &[Token]) -> Option<&[Token]>
    ensures { AfterExtent result (words_of tokens.now) }
{
    match tokens {
        [Token::Digits(digits), Token::Colon, rest @ ..] if is_one(digits) => Some(rest),
        _ => None,
    }
}

// The extent at the front of the words, and what follows it.
#[tactic(auto, using(crate::proofs::PartLaws::extents))]
fn extent(alloc: Global, tokens: &[Token]) -> Result<(Expression, &[Token]), Stop>
    ensures found { IfOk result (λ r. Begins IsMadeOf IsExpression90 written_extent (words_of tokens.now) r.0
        (words_of r.1.now)) }
    ensures only { (p : Phrase90) (last : List words.Word90) → IsExpression90 p → EndsItem last
        → words_of tokens.now ≡ written_extent p ++ last
        → Given result (λ r. IsThe IsMadeOf IsExpression90 written_extent p last r.0 (words_of r.1.now)) }
{
    let Some(rest) = after_one(tokens) else {
        return Err(Stop::Syntax);
    };
    match read(alloc, rest) {
        Ok((extent, rest)) => Ok((extent, rest)),
        Err(stop) => Err(stop),
    }
}

/// The extents at the front of the words, and what follows them.
pub(crate) fn extents(alloc: Global, tokens: &[Token]) -> Result<(Seq<Expression>, &[Token]), Stop>
    ensures found { IfOk result (λ r. BeginsWithList IsMadeOf IsExpression90 written_extent (words_of tokens.now) r.0
        (words_of r.1.now)) }
    ensures only { (ps : List Phrase90) (last : List words.Word90) → IsList IsExpression90 ps → EndsList last
        → words_of tokens.now ≡ separated90 written_extent ps ++ last
        → Given result (λ r. AreOf IsMadeOf r.0 ps × (words_of r.1.now ≡ last)) }
{
    let (first, tail) = extent(alloc, tokens)?;
    let mut extents = Seq::new(alloc);
    extents.push(first)?;
    let mut rest = tail;
    'extents: while let Some(more) = after(Separator::Comma, rest) {
        let (next, tail) = extent(alloc, more)?;
        extents.push(next)?;
        rest = tail;
    }
    Ok((extents, rest))
}
