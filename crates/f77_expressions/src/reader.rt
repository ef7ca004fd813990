//! Expressions, read word by word.
ghost use Rattle.std.specs.Prelude.{◌≡◌, ◌<◌, length, List, [], ◌∷◌, ◌++◌, IfOk};
ghost use Rattle.tree.specs.OperatorTable.{level_of};
ghost use Rattle.f77_expressions.specs.Reader as reader;
ghost use Rattle.f77_grammar.specs.expressions.Words as words;
ghost use Rattle.f77_grammar.specs.expressions.Phrases.{Phrase77, IsExpression77, written77};
ghost use Rattle.f77_expressions.specs.Reading as reading;
ghost use Rattle.f77_expressions.specs.Reading.{Ends, Gives};
ghost use Rattle.f77_expressions.specs.Tokens.{word_of};
ghost use Rattle.f77_expressions.specs.Views.{operand_of, frame_of, stack, held, state_of, words_of, Begins, Turns};
ghost use Rattle.f77_expressions.specs.Views.{Shuts, Parts, Halts, Finishes, Reads};
ghost use Rattle.reading.specs.Signs.{sign_of};

use crate::operands::{Frame, Operand};
use crate::tokens::Token;
use reading::{Sign, Stop};
use std::alloc::Global;
use tree::{Expr, Memory, Op, Ref, Seq, Sub};

// The least level of an operand in the innermost frame.
#[tactic(auto, using(crate::proofs::Stacks::stacks))]
fn least(frames: &[Frame]) -> u8
    ensures { result ≡ reader.least (stack frames.now) }
{
    match frames.split_last() {
        Some((innermost, _)) => innermost.least(),
        None => 0,
    }
}

// Applies the signs and operators that bind more tightly than the level.
#[tactic(auto, using(crate::proofs::Stacks::stacks))]
fn close(
    alloc: Global,
    level: u8,
    frames: &mut Vec<Frame>,
    operand: Operand,
) -> Result<Operand, Memory>
    ensures { IfOk result (λ closed. reader.close level (stack frames.old.items) (operand_of operand)
        ≡ held frames.new.items closed) }
{
    let mut operand = operand;
    'closing: while level < least(frames.as_slice()) {
        let Some(frame) = frames.pop() else {
            return Ok(operand);
        };
        operand = frame.applied(alloc, operand)?;
    }
    Ok(operand)
}

// A sign where an operand is due.
#[tactic(auto, using(crate::proofs::Stacks::stacks))]
fn begin_sign(frames: &mut Vec<Frame>, op: Op) -> Result<Option<Operand>, Stop>
    ensures { Begins result frames.new.items (reader.begin_sign (stack frames.old.items) (sign_of op)) }
{
    let Some(sign) = Sign::of(op) else {
        return Err(Stop::Syntax);
    };
    if sign.level() < least(frames.as_slice()) {
        return Err(Stop::Syntax);
    }
    frames.push(Frame::Before(sign))?;
    Ok(None)
}

// A word where an operand is due: the operand that it is, or none where it opens a frame.
#[tactic(auto, using(crate::proofs::Stacks::stacks, crate::proofs::Trees::primaries))]
fn begin(alloc: Global, frames: &mut Vec<Frame>, token: &Token) -> Result<Option<Operand>, Stop>
    ensures { Begins result frames.new.items (reader.begin (stack frames.old.items) (word_of token.now)) }
{
    match token {
        Token::Number(number) => Ok(Some(Operand::primary(Expr::Int(*number)))),
        Token::Wide => Ok(Some(Operand::primary(Expr::Int(0)))),
        Token::Truth(truth) => Ok(Some(Operand::primary(Expr::Truth(*truth)))),
        Token::Name(name) => Ok(Some(Operand::primary(Expr::Item(Ref {
            name: *name,
            subs: Seq::new(alloc),
        })))),
        Token::Head(name) => {
            frames.push(Frame::Among(*name, Seq::new(alloc), 0, true))?;
            Ok(None)
        }
        Token::Operator(op) => begin_sign(frames, *op),
        Token::Open => {
            frames.push(Frame::Within)?;
            Ok(None)
        }
        Token::Close => Err(Stop::Syntax),
        Token::Comma => Err(Stop::Syntax),
        Token::Equals => Err(Stop::Syntax),
        Token::Colon => Err(Stop::Syntax),
        Token::Constant(_) => Err(Stop::Syntax),
    }
}

/// What a word behind an operand does: an operand is due or held, or the expression is whole.
#[derive(Drop)]
pub(crate) enum Turn {
    On(Option<Operand>),
    Whole(Operand),
}

// An operator behind an operand.
#[tactic(auto, using(crate::proofs::Stacks::stacks))]
fn join(alloc: Global, frames: &mut Vec<Frame>, operand: Operand, op: Op) -> Result<Turn, Stop>
    ensures { Turns result frames.new.items (reader.join op
        (reader.close (level_of op) (stack frames.old.items) (operand_of operand))) }
{
    let operand = close(alloc, op.level(), frames, operand)?;
    if !op.stands_between() || operand.level < op.left_least() {
        return Err(Stop::Syntax);
    }
    frames.push(Frame::After(op, operand))?;
    Ok(Turn::On(None))
}

// A closing parenthesis ends what the frame opened.
#[tactic(auto, using(crate::proofs::Trees::lists))]
fn shut(frame: Frame, operand: Operand) -> Result<Operand, Stop>
    ensures { (fs : List reader.Frame) → Shuts result fs (reader.shut (frame_of frame ∷ fs) (operand_of operand)) }
{
    match frame {
        Frame::Within => Ok(operand.in_parentheses()),
        Frame::Among(name, mut subs, depth, placed) => {
            let depth = depth.max(operand.depth);
            let placed = placed && operand.placed;
            subs.push(Sub::One(operand.tree))?;
            Ok(Operand::listed(name, subs, depth, placed))
        }
        Frame::Before(_) => Err(Stop::Syntax),
        Frame::After(_, _) => Err(Stop::Syntax),
    }
}

// A comma goes on with the list of the frame.
#[tactic(auto, using(crate::proofs::Trees::lists))]
fn part(frame: Frame, operand: Operand) -> Result<Frame, Stop>
    ensures { (fs : List reader.Frame) → Parts result fs (reader.part (frame_of frame ∷ fs) (operand_of operand)) }
{
    match frame {
        Frame::Among(name, mut subs, depth, placed) => {
            let depth = depth.max(operand.depth);
            let placed = placed && operand.placed;
            subs.push(Sub::One(operand.tree))?;
            Ok(Frame::Among(name, subs, depth, placed))
        }
        Frame::Within => Err(Stop::Syntax),
        Frame::Before(_) => Err(Stop::Syntax),
        Frame::After(_, _) => Err(Stop::Syntax),
    }
}

// A closing parenthesis behind an operand.
#[tactic(auto, using(crate::proofs::Stacks::stacks))]
fn close_parenthesis(alloc: Global, frames: &mut Vec<Frame>, operand: Operand) -> Result<Turn, Stop>
    ensures { Turns result frames.new.items (reader.go_on (stack frames.old.items) (operand_of operand) words.Close) }
{
    let operand = close(alloc, 0, frames, operand)?;
    let Some(frame) = frames.pop() else {
        return Ok(Turn::Whole(operand));
    };
    Ok(Turn::On(Some(shut(frame, operand)?)))
}

// A comma behind an operand.
#[tactic(auto, using(crate::proofs::Stacks::stacks))]
fn comma(alloc: Global, frames: &mut Vec<Frame>, operand: Operand) -> Result<Turn, Stop>
    ensures { Turns result frames.new.items (reader.go_on (stack frames.old.items) (operand_of operand) words.Comma) }
{
    let operand = close(alloc, 0, frames, operand)?;
    let Some(frame) = frames.pop() else {
        return Ok(Turn::Whole(operand));
    };
    frames.push(part(frame, operand)?)?;
    Ok(Turn::On(None))
}

// What ends an expression, behind an operand.
#[tactic(auto, using(crate::proofs::Stacks::stacks))]
fn halt(alloc: Global, frames: &mut Vec<Frame>, operand: Operand) -> Result<Operand, Stop>
    ensures { Halts result (reader.halted (stack frames.old.items) (operand_of operand)) }
{
    let operand = close(alloc, 0, frames, operand)?;
    if !frames.is_empty() {
        return Err(Stop::Syntax);
    }
    Ok(operand)
}

// A word behind an operand.
fn go_on(
    alloc: Global,
    frames: &mut Vec<Frame>,
    operand: Operand,
    token: &Token,
) -> Result<Turn, Stop>
    ensures { Turns result frames.new.items (reader.go_on (stack frames.old.items) (operand_of operand)
        (word_of token.now)) }
{
    match token {
        Token::Operator(op) => join(alloc, frames, operand, *op),
        Token::Close => close_parenthesis(alloc, frames, operand),
        Token::Comma => comma(alloc, frames, operand),
        Token::Equals => Ok(Turn::Whole(halt(alloc, frames, operand)?)),
        Token::Colon => Ok(Turn::Whole(halt(alloc, frames, operand)?)),
        Token::Number(_) => Err(Stop::Syntax),
        Token::Wide => Err(Stop::Syntax),
        Token::Truth(_) => Err(Stop::Syntax),
        Token::Name(_) => Err(Stop::Syntax),
        Token::Head(_) => Err(Stop::Syntax),
        Token::Open => Err(Stop::Syntax),
        Token::Constant(_) => Err(Stop::Syntax),
    }
}

// One word.
fn take(
    alloc: Global,
    frames: &mut Vec<Frame>,
    held: Option<Operand>,
    token: &Token,
) -> Result<Turn, Stop>
    ensures { Turns result frames.new.items (reader.step (state_of frames.old.items held) (word_of token.now)) }
{
    match held {
        None => Ok(Turn::On(begin(alloc, frames, token)?)),
        Some(operand) => go_on(alloc, frames, operand, token),
    }
}

// The end of the words.
fn finish(alloc: Global, frames: &mut Vec<Frame>, held: Option<Operand>) -> Result<Operand, Stop>
    ensures { Finishes result (state_of frames.old.items held) }
{
    match held {
        None => Err(Stop::Syntax),
        Some(operand) => halt(alloc, frames, operand),
    }
}

// The expression at the front of the words, and what follows it, by the machine, wherever its signs stand.
fn run(alloc: Global, tokens: &[Token]) -> Result<(Operand, &[Token]), Stop>
    ensures { Reads result (reader.run (words_of tokens.now) (reader.Wants [])) }
{
    let mut frames = Vec::new(alloc);
    let mut held = None;
    'reading: for (i, token) in tokens.iter().enumerate() {
        match take(alloc, &mut frames, held, token)? {
            Turn::On(next) => held = next,
            Turn::Whole(operand) => return Ok((operand, &tokens[i..])),
        }
    }
    let operand = finish(alloc, &mut frames, held)?;
    Ok((operand, &tokens[tokens.len()..]))
}

// The same, where each plus or minus sign stands where one may.
#[tactic(auto, using(crate::proofs::ReadingLaws::checking))]
fn run_checked(alloc: Global, tokens: &[Token]) -> Result<(Operand, &[Token]), Stop>
    ensures { Reads result (reader.read (words_of tokens.now)) }
{
    let (operand, rest) = run(alloc, tokens)?;
    if !operand.placed {
        return Err(Stop::Syntax);
    }
    Ok((operand, rest))
}

/// The expression at the front of the words, and what follows it.
#[tactic(auto, using(crate::proofs::ReadingLaws::reading))]
pub fn read(alloc: Global, tokens: &[Token]) -> Result<(Operand, &[Token]), Stop>
    // What is read is an expression.
    ensures found { IfOk result (λ r. reading.Begins (words_of tokens.now) r.0 (words_of r.1.now)) }
    // By the machine's steps.
    ensures reads { Reads result (reader.read (words_of tokens.now)) }
    ensures shorter { IfOk result (λ r. length r.1.now < length tokens.now) }
    // An expression is read, in one way alone.
    ensures only { (p : Phrase77) (rest : List words.Word77) → IsExpression77 p → Ends rest
        → words_of tokens.now ≡ written77 p ++ rest → Gives result p rest }
{
    run_checked(alloc, tokens)
}
