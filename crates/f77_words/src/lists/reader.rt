//! Lists, read item by item.
ghost use Rattle.std.specs.Prelude.{◌≡◌, ◌<◌, ◌+◌, length, List, IfOk, IfSome, OnOk, IsErrOf};
ghost use Rattle.tree.specs.View.{item_of, expression_of};
ghost use Rattle.f77_grammar.specs.expressions.Words as words;
ghost use Rattle.f77_expressions.specs.Reader as expressions;
ghost use Rattle.f77_expressions.specs.Views.{words_of, operand_of};
ghost use Rattle.f77_words.specs.lists.Reader as reader;
ghost use Rattle.f77_words.specs.lists.Views.{stack, state_of, frame_of, Leaves, Turns, Ends, Opens, IsShorter, Runs};

use crate::lists::controls::{DoControl, begins_control, read_control};
use crate::lists::lists::ItemList;
use f77_expressions::{Operand, Token, after_close, begins_with_name, deepened, read};
use f77_grammar::Direction;
use reading::Stop;
use std::alloc::Global;
use tree::{Item, Memory, Seq, copy_text};

/// What comes next, with the words that follow: an item is due, or has been read, or the list is whole.
#[derive(Drop)]
pub(crate) enum Turn<'a> {
    Due(&'a [Token]),
    Done(&'a [Token]),
    Whole(ItemList),
}

// Whether a comma stands in the parenthesis before the words, and in none within it.
fn holds_comma(tokens: &[Token]) -> bool
    ensures { result ≡ reader.holds_comma 0 (words_of tokens.now) }
{
    let mut open: usize = 0;
    'scanning: for token in tokens {
        match token {
            Token::Open | Token::Head(_) => open += 1,
            Token::Close => {
                if open == 0 {
                    return false;
                }
                open -= 1;
            }
            Token::Comma => {
                if open == 0 {
                    return true;
                }
            }
            Token::Number(_)
            | Token::Wide
            | Token::Truth(_)
            | Token::Name(_)
            | Token::Operator(_)
            | Token::Equals
            | Token::Colon
            | Token::Constant(_) => {}
        }
    }
    false
}

// What follows the parenthesis of an implied DO list, where one begins: its parenthesis holds a comma.
fn opened(tokens: &[Token]) -> Option<&[Token]>
    ensures opens { Opens result (words_of tokens.now) }
    ensures shorter { IfSome result (λ rest. length rest.now < length tokens.now) }
{
    match tokens {
        [Token::Open, rest @ ..] if holds_comma(rest) => Some(rest),
        _ => None,
    }
}

// Whether the expression may stand as an item: a reference is read.
fn may_stand(direction: Direction, tokens: &[Token], operand: &Operand) -> bool
    ensures { result ≡ reader.may_stand direction (words_of tokens.now) (operand_of operand.now) }
{
    match direction {
        Direction::Output => true,
        Direction::Input => begins_with_name(tokens) && operand.level == 10,
    }
}

// Puts an item of some depth into the innermost list.
#[tactic(auto, using(crate::proofs::lists::Stacks::stacks))]
fn put(lists: &mut Vec<ItemList>, item: Item, depth: u16) -> Result<(), Stop>
    ensures ok { OnOk result ((ws : List words.Word77) → reader.put (item_of item) depth (stack lists.old.items) ws
        ≡ reader.Go (reader.Done (stack lists.new.items) ws)) }
    ensures syntax { IsErrOf result Stop.Syntax → (ws : List words.Word77)
        → reader.put (item_of item) depth (stack lists.old.items) ws ≡ reader.Fail }
{
    let Some(list) = lists.pop() else {
        return Err(Stop::Syntax);
    };
    lists.push(list.with(item, depth)?)?;
    Ok(())
}

// An expression as an item.
#[tactic(auto, using(tree::proofs::Equations::item_equations))]
fn value<'a>(
    alloc: Global,
    direction: Direction,
    lists: &mut Vec<ItemList>,
    tokens: &'a [Token],
) -> Result<&'a [Token], Stop>
    ensures value { Leaves result lists.new.items (reader.value direction (words_of tokens.now)
        (stack lists.old.items) (expressions.read (words_of tokens.now))) }
    ensures shorter { IfOk result (λ rest. length rest.now < length tokens.now) }
{
    let (operand, rest) = read(alloc, tokens)?;
    if !may_stand(direction, tokens, &operand) {
        return Err(Stop::Syntax);
    }
    put(lists, Item::One(operand.tree), operand.depth)?;
    Ok(rest)
}

// A character constant as an item.
#[tactic(auto, using(tree::proofs::Equations::item_equations))]
fn text(
    alloc: Global,
    direction: Direction,
    lists: &mut Vec<ItemList>,
    text: &Seq<u8>,
) -> Result<(), Stop>
    ensures ok { OnOk result ((ws : List words.Word77) → reader.text direction text.now
        (stack lists.old.items) ws ≡ reader.Go (reader.Done (stack lists.new.items) ws)) }
    ensures syntax { IsErrOf result Stop.Syntax → (ws : List words.Word77)
        → reader.text direction text.now (stack lists.old.items) ws ≡ reader.Fail }
{
    match direction {
        Direction::Output => put(lists, Item::Text(copy_text(text, alloc)?), 0),
        Direction::Input => Err(Stop::Syntax),
    }
}

// An item that isn't an implied DO list.
fn simple<'a>(
    alloc: Global,
    direction: Direction,
    lists: &mut Vec<ItemList>,
    tokens: &'a [Token],
) -> Result<&'a [Token], Stop>
    ensures simple { Leaves result lists.new.items (reader.simple direction (stack lists.old.items)
        (words_of tokens.now)) }
    ensures shorter { IfOk result (λ rest. length rest.now < length tokens.now) }
{
    match tokens {
        [Token::Constant(constant), rest @ ..] => {
            text(alloc, direction, lists, constant)?;
            Ok(rest)
        }
        _ => value(alloc, direction, lists, tokens),
    }
}

// Where an item is due.
#[tactic(auto, using(crate::proofs::lists::Stacks::stacks))]
fn begin<'a>(
    alloc: Global,
    direction: Direction,
    lists: &mut Vec<ItemList>,
    tokens: &'a [Token],
) -> Result<Turn<'a>, Stop>
    ensures begin { Turns result lists.new.items (reader.begin direction (stack lists.old.items)
        (words_of tokens.now)) }
    ensures shorter { IfOk result (λ turn. IsShorter turn (length tokens.now)) }
{
    match opened(tokens) {
        Some(rest) => {
            lists.push(ItemList::new(alloc))?;
            Ok(Turn::Due(rest))
        }
        None => Ok(Turn::Done(simple(alloc, direction, lists, tokens)?)),
    }
}

// The end of an implied DO list: its control and its parenthesis.
#[tactic(auto, using(crate::proofs::lists::Stacks::stacks, tree::proofs::Equations::item_equations))]
fn repeat<'a>(
    alloc: Global,
    lists: &mut Vec<ItemList>,
    tokens: &'a [Token],
) -> Result<&'a [Token], Stop>
    ensures repeat { Leaves result lists.new.items (reader.repeat (stack lists.old.items)
        (reader.control (words_of tokens.now))) }
    ensures shorter { IfOk result (λ rest. length rest.now < length tokens.now) }
{
    let (control, rest) = read_control(alloc, tokens)?;
    let Some(rest) = after_close(rest) else {
        return Err(Stop::Syntax);
    };
    let Some(list) = lists.pop() else {
        return Err(Stop::Syntax);
    };
    let DoControl {
        variable,
        first,
        last,
        step,
        depth,
    } = control;
    let depth = deepened(list.depth.max(depth));
    put(
        lists,
        Item::Turns(list.items, variable, first, last, step),
        depth,
    )?;
    Ok(rest)
}

// The one list that is open.
#[tactic(auto, using(crate::proofs::lists::Stacks::stacks))]
fn whole(lists: &mut Vec<ItemList>) -> Result<ItemList, Stop>
    ensures { Ends result (reader.whole (stack lists.old.items)) }
{
    let Some(list) = lists.pop() else {
        return Err(Stop::Syntax);
    };
    if !lists.is_empty() {
        return Err(Stop::Syntax);
    }
    Ok(list)
}

// What follows the comma behind an item.
fn behind_comma<'a>(
    alloc: Global,
    lists: &mut Vec<ItemList>,
    tokens: &'a [Token],
) -> Result<Turn<'a>, Stop>
    ensures comma { Turns result lists.new.items (reader.behind_comma (stack lists.old.items) (words_of tokens.now)
        (reader.begins_control (words_of tokens.now))) }
    ensures shorter { IfOk result (λ turn. IsShorter turn (length tokens.now + 1)) }
{
    if begins_control(tokens) {
        Ok(Turn::Done(repeat(alloc, lists, tokens)?))
    } else {
        Ok(Turn::Due(tokens))
    }
}

// What follows an item.
fn follow<'a>(
    alloc: Global,
    lists: &mut Vec<ItemList>,
    tokens: &'a [Token],
) -> Result<Turn<'a>, Stop>
    ensures follow { Turns result lists.new.items (reader.follow (stack lists.old.items) (words_of tokens.now)) }
    ensures shorter { IfOk result (λ turn. IsShorter turn (length tokens.now)) }
{
    match tokens {
        [] => Ok(Turn::Whole(whole(lists)?)),
        [Token::Comma, rest @ ..] => behind_comma(alloc, lists, rest),
        _ => Err(Stop::Syntax),
    }
}

fn step<'a>(
    alloc: Global,
    direction: Direction,
    lists: &mut Vec<ItemList>,
    is_due: bool,
    tokens: &'a [Token],
) -> Result<Turn<'a>, Stop>
    ensures step { Turns result lists.new.items (reader.step direction
        (state_of is_due lists.old.items (words_of tokens.now))) }
    ensures shorter { IfOk result (λ turn. IsShorter turn (length tokens.now)) }
{
    if is_due {
        begin(alloc, direction, lists, tokens)
    } else {
        follow(alloc, lists, tokens)
    }
}

/// All words as one list, by steps.
#[tactic(auto, using(crate::proofs::lists::Paths::paths))]
pub(crate) fn run(alloc: Global, direction: Direction, tokens: &[Token]) -> Result<ItemList, Stop>
    ensures { Runs result direction (words_of tokens.now) }
{
    let mut lists = Vec::new(alloc);
    lists.push(ItemList::new(alloc))?;
    let mut is_due = true;
    let mut rest = tokens;
    'reading: loop {
        match step(alloc, direction, &mut lists, is_due, rest)? {
            Turn::Due(tail) => {
                is_due = true;
                rest = tail;
            }
            Turn::Done(tail) => {
                is_due = false;
                rest = tail;
            }
            Turn::Whole(list) => return Ok(list),
        }
    }
}
