//! Expressions, read word by word.
ghost use Rattle.std.specs.Prelude.{◌≡◌, List, [], ◌∷◌, ◌++◌, IfOk, OnOk};
ghost use Rattle.tree.specs.OperatorTable.{level_of};
ghost use Rattle.f90_grammar.specs.Words as words;
ghost use Rattle.f90_expressions.specs.words.Tokens.{word_of, words_of};
ghost use Rattle.f90_expressions.specs.Machine as machine;
ghost use Rattle.f90_expressions.specs.Views.{info_seen, frame_seen, node_seen, nodes_seen, stack, state_in, Goes};
ghost use Rattle.f90_expressions.specs.Views.{Opens, Turns, Halts, Finishes, Reads, Continues};
ghost use Rattle.f90_grammar.specs.Phrases.{Phrase90, IsExpression90, written90};
ghost use Rattle.f90_laws.specs.unique.Unique.{EndsExpression};
ghost use Rattle.f90_expressions.specs.Reading.{Begins, Gives};
ghost use Rattle.reading.specs.Signs.{sign_of};

use crate::nodes::{Expression, Node};
use crate::operands::{Frame, Operand, Parts};
use crate::words::Token;
use reading::{Sign, Stop};
use std::alloc::Global;
use tree::{Memory, Name, Op, Seq, copy_text};

/// An operand is due, or one is held; a turn is held; the variable of a turn, which is round another turn or isn't, is
/// due, or the equals sign behind it.
#[derive(Drop)]
pub(crate) enum State {
    Wants,
    Has(Operand),
    HasTurn(Parts),
    WantsName(bool, Parts),
    WantsEquals(bool, Name, Parts),
}

/// What a word does: reading goes on, or the expression is whole.
#[derive(Drop)]
pub(crate) enum Turn {
    On(State),
    Whole(Operand),
}

/// What a comma does: it goes on with what the frame opened, or begins the loop of a turn.
#[derive(Drop)]
pub(crate) enum Opened {
    Further(Frame),
    Loop(Parts),
}

// The least level of an operand in the innermost frame.
#[tactic(auto, using(crate::proofs::Stacks::stacks))]
fn least(frames: &[Frame]) -> u8
    ensures { result ≡ machine.least (stack frames.now) }
{
    match frames.split_last() {
        Some((innermost, _)) => innermost.least(),
        None => 0,
    }
}

// Writes the sign or the operator of a frame.
#[tactic(auto, using(crate::proofs::Stacks::stacks))]
fn emit(nodes: &mut Vec<Node>, frame: &Frame) -> Result<(), Memory>
    ensures { OnOk result (nodes_seen nodes.new.items
        ≡ nodes_seen nodes.old.items ++ machine.emitted (frame_seen frame.now)) }
{
    if let Some(node) = frame.node() {
        nodes.push(node)?;
    }
    Ok(())
}

// Applies the signs and operators that bind more tightly than the level.
#[tactic(auto, using(crate::proofs::Stacks::stacks))]
fn close(
    level: u8,
    frames: &mut Vec<Frame>,
    nodes: &mut Vec<Node>,
    operand: Operand,
) -> Result<Operand, Memory>
    ensures { IfOk result (λ closed.
        machine.close level (stack frames.old.items) (info_seen operand) (nodes_seen nodes.old.items)
        ≡ machine.held (stack frames.new.items) (info_seen closed) (nodes_seen nodes.new.items)) }
{
    let mut operand = operand;
    'closing: while level < least(frames.as_slice()) {
        let Some(frame) = frames.pop() else {
            return Ok(operand);
        };
        emit(nodes, &frame)?;
        operand = frame.into(operand);
    }
    Ok(operand)
}

// A sign where an operand is due.
#[tactic(auto, using(crate::proofs::Stacks::stacks))]
fn begin_sign(frames: &mut Vec<Frame>, nodes: &mut Vec<Node>, op: Op) -> Result<Turn, Stop>
    ensures { Turns result frames.new.items nodes.new.items
        (machine.begin_sign (stack frames.old.items) (sign_of op) (nodes_seen nodes.old.items)) }
{
    let _ = nodes;
    let Some(sign) = Sign::of(op) else {
        return Err(Stop::Syntax);
    };
    if sign.level() < least(frames.as_slice()) {
        return Err(Stop::Syntax);
    }
    frames.push(Frame::Before(sign))?;
    Ok(Turn::On(State::Wants))
}

// A word that is an operand.
#[tactic(auto, using(crate::proofs::Stacks::stacks))]
fn operand(nodes: &mut Vec<Node>, node: Node) -> Result<Turn, Stop>
    ensures { (frames : List Frame) → Turns result frames nodes.new.items
        (machine.operand (stack frames) (nodes_seen nodes.old.items) (node_seen node)) }
{
    nodes.push(node)?;
    Ok(Turn::On(State::Has(Operand::primary())))
}

// A word that begins a list.
#[tactic(auto, using(crate::proofs::Stacks::stacks))]
fn begin_list(frames: &mut Vec<Frame>, nodes: &mut Vec<Node>, frame: Frame) -> Result<Turn, Stop>
    ensures { Turns result frames.new.items nodes.new.items
        (machine.Go (machine.Wants (frame_seen frame ∷ stack frames.old.items))
        (nodes_seen nodes.old.items ++ node_seen Node.Begin ∷ [])) }
{
    nodes.push(Node::Begin)?;
    frames.push(frame)?;
    Ok(Turn::On(State::Wants))
}

// A word where an operand is due.
#[tactic(auto, using(crate::proofs::Stacks::stacks))]
fn begin(
    alloc: Global,
    frames: &mut Vec<Frame>,
    nodes: &mut Vec<Node>,
    token: &Token,
) -> Result<Turn, Stop>
    ensures { Turns result frames.new.items nodes.new.items
        (machine.begin (stack frames.old.items) (word_of token.now) (nodes_seen nodes.old.items)) }
{
    match token {
        Token::Digits(digits) => operand(nodes, Node::Digits(copy_text(digits, alloc)?)),
        Token::Truth(truth) => operand(nodes, Node::Truth(*truth)),
        Token::Name(name) => operand(nodes, Node::Name(*name)),
        Token::Head(name) => begin_list(frames, nodes, Frame::Among(*name, Parts::none())),
        Token::OpenList => begin_list(frames, nodes, Frame::Items(false, Parts::none())),
        Token::Operator(op) => begin_sign(frames, nodes, *op),
        Token::Open => {
            frames.push(Frame::Within)?;
            Ok(Turn::On(State::Wants))
        }
        Token::Close => Err(Stop::Syntax),
        Token::CloseList => Err(Stop::Syntax),
        Token::Comma => Err(Stop::Syntax),
        Token::Equals => Err(Stop::Syntax),
        Token::Colon => Err(Stop::Syntax),
        Token::Colons => Err(Stop::Syntax),
        Token::Constant(_) => Err(Stop::Syntax),
    }
}

// An operator between two operands, behind the first.
#[tactic(auto, using(crate::proofs::Stacks::stacks))]
fn join(
    frames: &mut Vec<Frame>,
    nodes: &mut Vec<Node>,
    operand: Operand,
    op: Op,
) -> Result<Turn, Stop>
    ensures { Turns result frames.new.items nodes.new.items (machine.join op
        (machine.close (level_of op) (stack frames.old.items) (info_seen operand) (nodes_seen nodes.old.items))) }
{
    let operand = close(op.level(), frames, nodes, operand)?;
    if operand.level < op.left_least() {
        return Err(Stop::Syntax);
    }
    frames.push(Frame::After(op, operand))?;
    Ok(Turn::On(State::Wants))
}

// What ends an expression, behind an operand.
#[tactic(auto, using(crate::proofs::Stacks::stacks))]
fn halt(frames: &mut Vec<Frame>, nodes: &mut Vec<Node>, operand: Operand) -> Result<Operand, Stop>
    ensures { Halts result nodes.new.items (machine.halted
        (machine.close 0 (stack frames.old.items) (info_seen operand) (nodes_seen nodes.old.items))) }
{
    let operand = close(0, frames, nodes, operand)?;
    if !frames.is_empty() {
        return Err(Stop::Syntax);
    }
    Ok(operand)
}

// The last part of a list.
#[tactic(auto, using(crate::proofs::Stacks::stacks))]
fn end_list(nodes: &mut Vec<Node>, name: Name, parts: Parts, part: Node) -> Result<State, Stop>
    ensures { (fs : List machine.Frame) → Goes result fs nodes.new.items
        (machine.named fs name parts.depth parts.placed (nodes_seen nodes.old.items) (node_seen part)) }
{
    nodes.push(part)?;
    nodes.push(Node::Listed(name))?;
    Ok(State::Has(parts.enclosed()))
}

// The end of a turn.
#[tactic(auto, using(crate::proofs::Stacks::stacks))]
fn end_turn(nodes: &mut Vec<Node>, is_outer: bool, name: Name, parts: Parts) -> Result<State, Stop>
    ensures { (fs : List machine.Frame) → Goes result fs nodes.new.items
        (machine.Go (machine.HasTurn fs (machine.deeper parts.depth) parts.placed)
        (nodes_seen nodes.old.items ++ machine.turn_node is_outer name ∷ [])) }
{
    nodes.push(if is_outer {
        Node::Outer(name)
    } else {
        Node::Inner(name)
    })?;
    Ok(State::HasTurn(parts.deepened()))
}

// A closing parenthesis ends what the frame opened.
#[tactic(auto, using(crate::proofs::Stacks::stacks))]
fn shut(frame: Frame, operand: Operand, nodes: &mut Vec<Node>) -> Result<State, Stop>
    ensures { (fs : List machine.Frame) → Goes result fs nodes.new.items
        (machine.shut (frame_seen frame ∷ fs) (info_seen operand) (nodes_seen nodes.old.items)) }
{
    match frame {
        Frame::Within => {
            nodes.push(Node::Parenthesis)?;
            Ok(State::Has(Parts::of(operand).enclosed()))
        }
        Frame::Among(name, parts) => end_list(nodes, name, parts.and(operand), Node::One),
        Frame::From(name, parts) => end_list(nodes, name, parts.and(operand), Node::Bounds),
        Frame::By(name, parts) => end_list(nodes, name, parts.and(operand), Node::Stride),
        Frame::Last(is_outer, name, parts) => end_turn(nodes, is_outer, name, parts.and(operand)),
        Frame::Before(_) => Err(Stop::Syntax),
        Frame::After(_, _) => Err(Stop::Syntax),
        Frame::Items(_, _) => Err(Stop::Syntax),
        Frame::First(_, _, _) => Err(Stop::Syntax),
    }
}

// A comma goes on with the list of the frame, or with the bounds of its turn, or begins the loop of a turn.
#[tactic(auto, using(crate::proofs::Stacks::stacks))]
fn part(frame: Frame, operand: Operand, nodes: &mut Vec<Node>) -> Result<Opened, Stop>
    ensures { (fs : List machine.Frame) → Continues result fs nodes.new.items
        (machine.part (frame_seen frame ∷ fs) (info_seen operand) (nodes_seen nodes.old.items)) }
{
    match frame {
        Frame::Within => Ok(Opened::Loop(Parts::of(operand))),
        Frame::Among(name, parts) => {
            nodes.push(Node::One)?;
            Ok(Opened::Further(Frame::Among(name, parts.and(operand))))
        }
        Frame::From(name, parts) => {
            nodes.push(Node::Bounds)?;
            Ok(Opened::Further(Frame::Among(name, parts.and(operand))))
        }
        Frame::By(name, parts) => {
            nodes.push(Node::Stride)?;
            Ok(Opened::Further(Frame::Among(name, parts.and(operand))))
        }
        Frame::Items(_, parts) => Ok(Opened::Further(Frame::Items(true, parts.and(operand)))),
        Frame::First(is_outer, name, parts) => {
            Ok(Opened::Further(Frame::Last(is_outer, name, parts.and(operand))))
        }
        Frame::Before(_) => Err(Stop::Syntax),
        Frame::After(_, _) => Err(Stop::Syntax),
        Frame::Last(_, _, _) => Err(Stop::Syntax),
    }
}

// The end of a constructor ends its values.
#[tactic(auto, using(crate::proofs::Stacks::stacks))]
fn shut_list(frame: Frame, operand: Operand, nodes: &mut Vec<Node>) -> Result<State, Stop>
    ensures { (fs : List machine.Frame) → Goes result fs nodes.new.items
        (machine.shut_list (frame_seen frame ∷ fs) (info_seen operand) (nodes_seen nodes.old.items)) }
{
    match frame {
        Frame::Items(_, parts) => {
            nodes.push(Node::Values)?;
            Ok(State::Has(parts.and(operand).enclosed()))
        }
        Frame::Before(_) => Err(Stop::Syntax),
        Frame::After(_, _) => Err(Stop::Syntax),
        Frame::Within => Err(Stop::Syntax),
        Frame::Among(_, _) => Err(Stop::Syntax),
        Frame::From(_, _) => Err(Stop::Syntax),
        Frame::By(_, _) => Err(Stop::Syntax),
        Frame::First(_, _, _) => Err(Stop::Syntax),
        Frame::Last(_, _, _) => Err(Stop::Syntax),
    }
}

// A colon goes on with a section.
fn colon_in(frame: Frame, operand: Operand, nodes: &mut Vec<Node>) -> Result<Frame, Stop>
    ensures { (fs : List machine.Frame) → Opens result fs nodes.new.items
        (machine.colon (frame_seen frame ∷ fs) (info_seen operand) (nodes_seen nodes.old.items)) }
{
    let _ = nodes;
    match frame {
        Frame::Among(name, parts) => Ok(Frame::From(name, parts.and(operand))),
        Frame::From(name, parts) => Ok(Frame::By(name, parts.and(operand))),
        Frame::Before(_) => Err(Stop::Syntax),
        Frame::After(_, _) => Err(Stop::Syntax),
        Frame::Within => Err(Stop::Syntax),
        Frame::By(_, _) => Err(Stop::Syntax),
        Frame::Items(_, _) => Err(Stop::Syntax),
        Frame::First(_, _, _) => Err(Stop::Syntax),
        Frame::Last(_, _, _) => Err(Stop::Syntax),
    }
}

// A closing parenthesis behind an operand.
#[tactic(auto, using(crate::proofs::Stacks::stacks))]
fn close_parenthesis(
    frames: &mut Vec<Frame>,
    nodes: &mut Vec<Node>,
    operand: Operand,
) -> Result<Turn, Stop>
    ensures { Turns result frames.new.items nodes.new.items
        (machine.go_on (stack frames.old.items) (info_seen operand) words.Close (nodes_seen nodes.old.items)) }
{
    let operand = close(0, frames, nodes, operand)?;
    let Some(frame) = frames.pop() else {
        return Ok(Turn::Whole(operand));
    };
    Ok(Turn::On(shut(frame, operand, nodes)?))
}

// A comma behind an operand.
#[tactic(auto, using(crate::proofs::Stacks::stacks))]
fn comma(frames: &mut Vec<Frame>, nodes: &mut Vec<Node>, operand: Operand) -> Result<Turn, Stop>
    ensures { Turns result frames.new.items nodes.new.items
        (machine.go_on (stack frames.old.items) (info_seen operand) words.Comma (nodes_seen nodes.old.items)) }
{
    let operand = close(0, frames, nodes, operand)?;
    let Some(frame) = frames.pop() else {
        return Ok(Turn::Whole(operand));
    };
    match part(frame, operand, nodes)? {
        Opened::Further(frame) => {
            frames.push(frame)?;
            Ok(Turn::On(State::Wants))
        }
        Opened::Loop(parts) => Ok(Turn::On(State::WantsName(false, parts))),
    }
}

// A colon behind an operand.
#[tactic(auto, using(crate::proofs::Stacks::stacks))]
fn colon(frames: &mut Vec<Frame>, nodes: &mut Vec<Node>, operand: Operand) -> Result<Turn, Stop>
    ensures { Turns result frames.new.items nodes.new.items
        (machine.go_on (stack frames.old.items) (info_seen operand) words.Colon (nodes_seen nodes.old.items)) }
{
    let operand = close(0, frames, nodes, operand)?;
    let Some(frame) = frames.pop() else {
        return Ok(Turn::Whole(operand));
    };
    frames.push(colon_in(frame, operand, nodes)?)?;
    Ok(Turn::On(State::Wants))
}

// The end of a constructor behind an operand.
#[tactic(auto, using(crate::proofs::Stacks::stacks))]
fn close_list(
    frames: &mut Vec<Frame>,
    nodes: &mut Vec<Node>,
    operand: Operand,
) -> Result<Turn, Stop>
    ensures { Turns result frames.new.items nodes.new.items
        (machine.go_on (stack frames.old.items) (info_seen operand) words.CloseList (nodes_seen nodes.old.items)) }
{
    let operand = close(0, frames, nodes, operand)?;
    let Some(frame) = frames.pop() else {
        return Ok(Turn::Whole(operand));
    };
    Ok(Turn::On(shut_list(frame, operand, nodes)?))
}

// An operator behind an operand.
fn operator(
    frames: &mut Vec<Frame>,
    nodes: &mut Vec<Node>,
    operand: Operand,
    op: Op,
) -> Result<Turn, Stop>
    ensures { Turns result frames.new.items nodes.new.items (machine.go_on (stack frames.old.items)
        (info_seen operand) (words.Operator op) (nodes_seen nodes.old.items)) }
{
    if op.stands_between() {
        join(frames, nodes, operand, op)
    } else {
        Ok(Turn::Whole(halt(frames, nodes, operand)?))
    }
}

// A word behind an operand.
fn go_on(
    frames: &mut Vec<Frame>,
    nodes: &mut Vec<Node>,
    operand: Operand,
    token: &Token,
) -> Result<Turn, Stop>
    ensures { Turns result frames.new.items nodes.new.items (machine.go_on (stack frames.old.items)
        (info_seen operand) (word_of token.now) (nodes_seen nodes.old.items)) }
{
    match token {
        Token::Operator(op) => operator(frames, nodes, operand, *op),
        Token::Close => close_parenthesis(frames, nodes, operand),
        Token::Comma => comma(frames, nodes, operand),
        Token::Colon => colon(frames, nodes, operand),
        Token::CloseList => close_list(frames, nodes, operand),
        Token::Digits(_)
        | Token::Truth(_)
        | Token::Name(_)
        | Token::Head(_)
        | Token::Open
        | Token::OpenList
        | Token::Equals
        | Token::Colons
        | Token::Constant(_) => Ok(Turn::Whole(halt(frames, nodes, operand)?)),
    }
}

// A comma behind a turn: a loop round it.
#[tactic(auto, using(crate::proofs::Stacks::stacks))]
fn loop_round(frame: Frame, turn: Parts) -> Result<State, Stop>
    ensures { (fs : List machine.Frame) (nodes : List Node) → Goes result fs nodes
        (machine.loop_round (frame_seen frame ∷ fs) turn.depth turn.placed (nodes_seen nodes)) }
{
    match frame {
        Frame::Within => Ok(State::WantsName(true, turn)),
        Frame::Before(_) => Err(Stop::Syntax),
        Frame::After(_, _) => Err(Stop::Syntax),
        Frame::Among(_, _) => Err(Stop::Syntax),
        Frame::From(_, _) => Err(Stop::Syntax),
        Frame::By(_, _) => Err(Stop::Syntax),
        Frame::Items(_, _) => Err(Stop::Syntax),
        Frame::First(_, _, _) => Err(Stop::Syntax),
        Frame::Last(_, _, _) => Err(Stop::Syntax),
    }
}

// The end of a constructor behind a turn.
#[tactic(auto, using(crate::proofs::Stacks::stacks))]
fn end_looped(frame: Frame, turn: Parts, nodes: &mut Vec<Node>) -> Result<State, Stop>
    ensures { (fs : List machine.Frame) → Goes result fs nodes.new.items
        (machine.end_looped (frame_seen frame ∷ fs) turn.depth turn.placed (nodes_seen nodes.old.items)) }
{
    match frame {
        Frame::Items(false, _) => {
            nodes.push(Node::Looped)?;
            Ok(State::Has(turn.enclosed()))
        }
        Frame::Items(true, _) => Err(Stop::Syntax),
        Frame::Before(_) => Err(Stop::Syntax),
        Frame::After(_, _) => Err(Stop::Syntax),
        Frame::Within => Err(Stop::Syntax),
        Frame::Among(_, _) => Err(Stop::Syntax),
        Frame::From(_, _) => Err(Stop::Syntax),
        Frame::By(_, _) => Err(Stop::Syntax),
        Frame::First(_, _, _) => Err(Stop::Syntax),
        Frame::Last(_, _, _) => Err(Stop::Syntax),
    }
}

// A word behind a turn.
#[tactic(auto, using(crate::proofs::Stacks::stacks))]
fn after_turn(
    frames: &mut Vec<Frame>,
    nodes: &mut Vec<Node>,
    turn: Parts,
    token: &Token,
) -> Result<Turn, Stop>
    ensures { Turns result frames.new.items nodes.new.items (machine.after_turn (stack frames.old.items)
        turn.depth turn.placed (word_of token.now) (nodes_seen nodes.old.items)) }
{
    match token {
        Token::Comma => {
            let Some(frame) = frames.pop() else {
                return Err(Stop::Syntax);
            };
            Ok(Turn::On(loop_round(frame, turn)?))
        }
        Token::CloseList => {
            let Some(frame) = frames.pop() else {
                return Err(Stop::Syntax);
            };
            Ok(Turn::On(end_looped(frame, turn, nodes)?))
        }
        Token::Digits(_)
        | Token::Truth(_)
        | Token::Name(_)
        | Token::Head(_)
        | Token::Operator(_)
        | Token::Open
        | Token::Close
        | Token::OpenList
        | Token::Equals
        | Token::Colon
        | Token::Colons
        | Token::Constant(_) => Err(Stop::Syntax),
    }
}

// The variable of a turn.
fn take_name(is_outer: bool, parts: Parts, token: &Token) -> Result<State, Stop>
    ensures { (fs : List machine.Frame) (nodes : List Node) → Goes result fs nodes
        (machine.take_name fs is_outer parts.depth parts.placed (word_of token.now) (nodes_seen nodes)) }
{
    match token {
        Token::Name(name) => Ok(State::WantsEquals(is_outer, *name, parts)),
        Token::Digits(_) => Err(Stop::Syntax),
        Token::Truth(_) => Err(Stop::Syntax),
        Token::Head(_) => Err(Stop::Syntax),
        Token::Operator(_) => Err(Stop::Syntax),
        Token::Open => Err(Stop::Syntax),
        Token::Close => Err(Stop::Syntax),
        Token::OpenList => Err(Stop::Syntax),
        Token::CloseList => Err(Stop::Syntax),
        Token::Comma => Err(Stop::Syntax),
        Token::Equals => Err(Stop::Syntax),
        Token::Colon => Err(Stop::Syntax),
        Token::Colons => Err(Stop::Syntax),
        Token::Constant(_) => Err(Stop::Syntax),
    }
}

// The equals sign behind it.
fn take_equals(is_outer: bool, name: Name, parts: Parts, token: &Token) -> Result<Frame, Stop>
    ensures { (fs : List machine.Frame) (nodes : List Node) → Opens result fs nodes
        (machine.take_equals fs is_outer name parts.depth parts.placed (word_of token.now) (nodes_seen nodes)) }
{
    match token {
        Token::Equals => Ok(Frame::First(is_outer, name, parts)),
        Token::Digits(_) => Err(Stop::Syntax),
        Token::Truth(_) => Err(Stop::Syntax),
        Token::Name(_) => Err(Stop::Syntax),
        Token::Head(_) => Err(Stop::Syntax),
        Token::Operator(_) => Err(Stop::Syntax),
        Token::Open => Err(Stop::Syntax),
        Token::Close => Err(Stop::Syntax),
        Token::OpenList => Err(Stop::Syntax),
        Token::CloseList => Err(Stop::Syntax),
        Token::Comma => Err(Stop::Syntax),
        Token::Colon => Err(Stop::Syntax),
        Token::Colons => Err(Stop::Syntax),
        Token::Constant(_) => Err(Stop::Syntax),
    }
}

// One word.
#[tactic(auto, using(crate::proofs::Stacks::stacks))]
fn take(
    alloc: Global,
    frames: &mut Vec<Frame>,
    nodes: &mut Vec<Node>,
    state: State,
    token: &Token,
) -> Result<Turn, Stop>
    ensures { Turns result frames.new.items nodes.new.items (machine.step (state_in state (stack frames.old.items))
        (word_of token.now) (nodes_seen nodes.old.items)) }
{
    match state {
        State::Wants => begin(alloc, frames, nodes, token),
        State::Has(operand) => go_on(frames, nodes, operand, token),
        State::HasTurn(turn) => after_turn(frames, nodes, turn, token),
        State::WantsName(is_outer, parts) => Ok(Turn::On(take_name(is_outer, parts, token)?)),
        State::WantsEquals(is_outer, name, parts) => {
            frames.push(take_equals(is_outer, name, parts, token)?)?;
            Ok(Turn::On(State::Wants))
        }
    }
}

// The end of the words.
fn finish(frames: &mut Vec<Frame>, nodes: &mut Vec<Node>, state: State) -> Result<Operand, Stop>
    ensures { Finishes result nodes.new.items
        (machine.ended (state_in state (stack frames.old.items)) (nodes_seen nodes.old.items)) }
{
    match state {
        State::Has(operand) => halt(frames, nodes, operand),
        State::Wants => Err(Stop::Syntax),
        State::HasTurn(_) => Err(Stop::Syntax),
        State::WantsName(_, _) => Err(Stop::Syntax),
        State::WantsEquals(_, _, _) => Err(Stop::Syntax),
    }
}

// The expression at the front of the words, as a list, and what follows it, wherever its signs stand.
fn run<'a>(
    alloc: Global,
    tokens: &'a [Token],
    nodes: &mut Vec<Node>,
) -> Result<(Operand, &'a [Token]), Stop>
    ensures { Reads result nodes.new.items
        (machine.run (words_of tokens.now) (machine.Wants []) (nodes_seen nodes.old.items)) }
{
    let mut frames = Vec::new(alloc);
    let mut state = State::Wants;
    'reading: for (i, token) in tokens.iter().enumerate() {
        match take(alloc, &mut frames, nodes, state, token)? {
            Turn::On(next) => state = next,
            Turn::Whole(operand) => return Ok((operand, &tokens[i..])),
        }
    }
    let operand = finish(&mut frames, nodes, state)?;
    Ok((operand, &tokens[tokens.len()..]))
}

/// The expression at the front of the words, and what follows it. Which names are functions doesn't matter.
pub fn read(alloc: Global, tokens: &[Token]) -> Result<(Expression, &[Token]), Stop>
    // What is read is an expression.
    ensures found { IfOk result (λ r. Begins (words_of tokens.now) r.0 (words_of r.1.now)) }
    // An expression is read, in one way alone.
    ensures only { (p : Phrase90) (rest : List words.Word90) → IsExpression90 p → EndsExpression rest
        → words_of tokens.now ≡ written90 p ++ rest → Gives result p rest }
{
    let mut nodes = Vec::new(alloc);
    let (operand, rest) = run(alloc, tokens, &mut nodes)?;
    if !operand.placed {
        return Err(Stop::Syntax);
    }
    let expression = Expression {
        nodes: Seq::from_vec(nodes),
        depth: operand.depth,
    };
    Ok((expression, rest))
}
