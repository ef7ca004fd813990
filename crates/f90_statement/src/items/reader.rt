//! Lists of PRINT and READ, read item by item.
ghost use Rattle.std.specs.Prelude.{◌≡◌, ◌+◌, ◌-◌, ◌<◌, ◌≤◌, ◌^◌, ◌↔◌, ◌∷◌, ℕ, List, true, false};
ghost use Rattle.std.specs.Prelude.{IfOk, IsTrue, length, drop};
ghost use Rattle.f90_grammar.specs.Items as items;
ghost use Rattle.f90_grammar.specs.Items.{ItemPhrases90, AreItems90, MayStand90, written_items90};
ghost use Rattle.f90_grammar.specs.Phrases.{Phrase90};
ghost use Rattle.f90_grammar.specs.Words as words;
ghost use Rattle.f90_expressions.specs.words.Tokens.{words_of};
ghost use Rattle.f90_expressions.specs.Reading.{IsMadeOf};
ghost use Rattle.f90_statement.specs.items.Commas.{comma_marks};
ghost use Rattle.f90_statement.specs.items.Reading.{AreList, Gives};
ghost use Rattle.f90_statement.specs.items.Views.{direction_of, Steps, IsValueFront, IsConstantFront, IsControlFront};
ghost use Rattle.f90_statement.specs.items.Views.{Controls, IsParts};

use crate::items::commas::commas;
use crate::items::depths::depth;
use crate::items::nodes::{Direction, ItemList, Node};
use crate::items::parts::{Bounds, Separator, after, is_variable};
use f90_expressions::words::Token;
use f90_expressions::{Expression, read};
use reading::Stop;
use std::alloc::Global;
use tree::{Name, Seq, copy_text};

/// A part that stands in front; whether an item is due behind it; how many implied DO lists are open there; the words
/// behind it.
#[derive(Drop)]
pub(crate) struct Step<'a> {
    pub node: Node,
    pub due: bool,
    pub loops: usize,
    pub rest: &'a [Token],
}

fn may_stand(direction: Direction, expression: &Expression) -> bool
    ensures { (p : Phrase90) → IsMadeOf expression.now p → IsTrue result ↔ MayStand90 (direction_of direction) p }
{
    match direction {
        Direction::Input => is_variable(expression),
        Direction::Output => true,
    }
}

// An item that is an expression; of READ one that may be read into.
#[tactic(auto, using(crate::proofs::items::MadeLaws::values))]
fn value(
    alloc: Global,
    direction: Direction,
    loops: usize,
    tokens: &[Token],
) -> Result<Step<'_>, Stop>
    requires { IsValueFront (words_of tokens.now) }
    ensures { Steps result (direction_of direction) true loops (words_of tokens.now) }
{
    match read(alloc, tokens) {
        Ok((expression, rest)) => {
            if !may_stand(direction, &expression) {
                return Err(Stop::Syntax);
            }
            let node = Node::Value(expression);
            let due = false;
            Ok(Step {
                node,
                due,
                loops,
                rest,
            })
        }
        Err(stop) => Err(stop),
    }
}

fn after_constant(tokens: &[Token]) -> Option<(&Seq<u8>, &[Token])>
    ensures { IsConstantFront result (words_of tokens.now) }
{
    match tokens {
        [Token::Constant(text), rest @ ..] => Some((text, rest)),
        _ => None,
    }
}

// A character constant, which READ has none of.
#[tactic(auto, using(crate::proofs::items::MadeLaws::texts))]
fn constant<'a>(
    alloc: Global,
    direction: Direction,
    loops: usize,
    text: &Seq<u8>,
    rest: &'a [Token],
) -> Result<Step<'a>, Stop>
    ensures { Steps result (direction_of direction) true loops (words.Constant text.now ∷ words_of rest.now) }
{
    match direction {
        Direction::Input => Err(Stop::Syntax),
        Direction::Output => {
            let node = Node::Text(copy_text(text, alloc)?);
            let due = false;
            Ok(Step {
                node,
                due,
                loops,
                rest,
            })
        }
    }
}

// An implied DO list, or an item that is an expression.
#[tactic(auto, using(crate::proofs::items::MadeLaws::lists))]
fn list_or_value<'a>(
    alloc: Global,
    direction: Direction,
    loops: usize,
    tokens: &'a [Token],
    marks: &[bool],
) -> Result<Step<'a>, Stop>
    requires marks { marks.now ≡ comma_marks (words_of tokens.now) }
    requires few { loops + length tokens.now < 2 ^ 64 }
    requires no_text { (t : List ℕ) (us : List words.Word90) → words_of tokens.now ≡ words.Constant t ∷ us → ⊥ }
    ensures { Steps result (direction_of direction) true loops (words_of tokens.now) }
{
    let Some(rest) = after(Separator::Open, tokens) else {
        return value(alloc, direction, loops, tokens);
    };
    if !marks[0] {
        return value(alloc, direction, loops, tokens);
    }
    let node = Node::Begin;
    let due = true;
    let loops = loops + 1;
    Ok(Step {
        node,
        due,
        loops,
        rest,
    })
}

// An item that is due.
#[tactic(auto, using(crate::proofs::items::MadeLaws::parts))]
fn item<'a>(
    alloc: Global,
    direction: Direction,
    loops: usize,
    tokens: &'a [Token],
    marks: &[bool],
) -> Result<Step<'a>, Stop>
    requires marks { marks.now ≡ comma_marks (words_of tokens.now) }
    requires few { loops + length tokens.now < 2 ^ 64 }
    ensures { Steps result (direction_of direction) true loops (words_of tokens.now) }
{
    let Some((text, rest)) = after_constant(tokens) else {
        return list_or_value(alloc, direction, loops, tokens, marks);
    };
    constant(alloc, direction, loops, text, rest)
}

// The variable of an implied DO list with the equals sign behind it.
fn control_front(tokens: &[Token]) -> Option<(Name, &[Token])>
    ensures { IsControlFront result (words_of tokens.now) }
{
    match tokens {
        [Token::Name(name), Token::Equals, rest @ ..] => Some((*name, rest)),
        _ => None,
    }
}

// The parameters of an implied DO list, behind its variable and the equals sign, and the end of the list.
#[tactic(auto, using(crate::proofs::items::MadeLaws::controls))]
fn control(alloc: Global, loops: usize, name: Name, tokens: &[Token]) -> Result<Step<'_>, Stop>
    requires { 0 < loops }
    ensures { (d : items.Direction) → Controls result d loops name (words_of tokens.now) }
{
    match Bounds::read(alloc, tokens) {
        Ok((bounds, rest)) => {
            let Some(rest) = after(Separator::Close, rest) else {
                return Err(Stop::Syntax);
            };
            let node = Node::Turns(name, bounds);
            let due = false;
            let loops = loops - 1;
            Ok(Step {
                node,
                due,
                loops,
                rest,
            })
        }
        Err(stop) => Err(stop),
    }
}

// What stands behind a comma: an item, or the end of an implied DO list.
#[tactic(auto, using(crate::proofs::items::MadeLaws::commas))]
fn behind_comma<'a>(
    alloc: Global,
    direction: Direction,
    loops: usize,
    tokens: &'a [Token],
    marks: &[bool],
) -> Result<Step<'a>, Stop>
    requires marks { marks.now ≡ comma_marks (words_of tokens.now) }
    requires few { loops + length tokens.now < 2 ^ 64 }
    ensures { Steps result (direction_of direction) false loops (words.Comma ∷ words_of tokens.now) }
{
    if loops == 0 {
        return item(alloc, direction, loops, tokens, marks);
    }
    let Some((name, rest)) = control_front(tokens) else {
        return item(alloc, direction, loops, tokens, marks);
    };
    control(alloc, loops, name, rest)
}

// The part that stands in front.
#[tactic(auto, using(crate::proofs::items::MadeLaws::parts))]
fn next_part<'a>(
    alloc: Global,
    direction: Direction,
    due: bool,
    loops: usize,
    tokens: &'a [Token],
    marks: &[bool],
) -> Result<Step<'a>, Stop>
    requires marks { marks.now ≡ comma_marks (words_of tokens.now) }
    requires few { loops + length tokens.now < 2 ^ 64 }
    requires some { due ≡ false → 0 < length tokens.now }
    ensures { Steps result (direction_of direction) due loops (words_of tokens.now) }
{
    if due {
        return item(alloc, direction, loops, tokens, marks);
    }
    let Some(rest) = after(Separator::Comma, tokens) else {
        return Err(Stop::Syntax);
    };
    behind_comma(alloc, direction, loops, rest, &marks[1..])
}

// The marks of the last words.
fn marks_behind<'a>(marks: &'a [bool], rest: &[Token]) -> &'a [bool]
    requires { length rest.now ≤ length marks.now }
    ensures { result.now ≡ drop (length marks.now - length rest.now) marks.now }
{
    &marks[marks.len() - rest.len()..]
}

// All parts, and whether the words are a list of them.
#[tactic(auto, using(crate::proofs::items::ReadLaws::reading))]
fn parts(alloc: Global, direction: Direction, tokens: &[Token]) -> Result<Seq<Node>, Stop>
    ensures { IsParts result (direction_of direction) (words_of tokens.now) }
{
    let marks = commas(alloc, tokens)?;
    let mut nodes = Vec::new(alloc);
    let mut due = true;
    let mut loops = 0;
    let mut rest = tokens;
    'reading: while due || !rest.is_empty() {
        let left = marks_behind(marks.as_slice(), rest);
        let step = next_part(alloc, direction, due, loops, rest, left)?;
        nodes.push(step.node)?;
        due = step.due;
        loops = step.loops;
        rest = step.rest;
    }
    if loops > 0 {
        return Err(Stop::Syntax);
    }
    Ok(Seq::from_vec(nodes))
}

impl ItemList {
    /// The words as a list of PRINT or READ.
    #[tactic(auto, using(crate::proofs::items::ReadLaws::whole))]
    pub fn read(alloc: Global, direction: Direction, tokens: &[Token]) -> Result<ItemList, Stop>
        // What is read is a list.
        ensures found { IfOk result (λ list. AreList (direction_of direction) (words_of tokens.now) list) }
        // A list is read, in one way alone.
        ensures only { (is : ItemPhrases90) → AreItems90 (direction_of direction) is
            → words_of tokens.now ≡ written_items90 is → Gives result is }
    {
        let nodes = parts(alloc, direction, tokens)?;
        let depth = depth(alloc, nodes.as_slice())?;
        Ok(ItemList { nodes, depth })
    }
}
