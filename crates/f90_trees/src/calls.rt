//! Whether each call of an expression has arguments that may stand there, from its list with a stack.
ghost use Rattle.std.specs.Prelude.{◌≡◌, ◌∷◌, [], OnOk, map};
ghost use Rattle.f90_expressions.specs.Views.{node_seen, nodes_seen};
ghost use Rattle.f90_trees.specs.Calls as calls;
ghost use Rattle.f90_trees.specs.Hiding.{function_in};
ghost use Rattle.f90_trees.specs.CallViews.{stack, part_seen, entry_seen, TakesValue, TakesTwo, TakesTurn};
ghost use Rattle.f90_trees.specs.CallViews.{TakesMark, TakesParts, Counts, Checks, Tells};

use crate::functions::Functions;
use f90_expressions::Node;
use std::alloc::Global;
use tree::{Intrinsic, Memory, Seq};

/// A literal without sign or parentheses, a list of so many values, or another value.
#[derive(Clone, Copy, Debug)]
pub(crate) enum Shape {
    Literal,
    Listing(usize),
    Other,
}

/// What lies on the stack: a value, a part of a list, which is a value or a section, the beginning of a list, or a
/// turn.
#[derive(Clone, Copy, Debug)]
pub(crate) enum Entry {
    Value(Shape),
    Part(Option<Shape>),
    Mark,
    Turn,
}

// ---- what lies on top

#[tactic(auto, using(crate::proofs::Stacks::stacks))]
fn take_value(entries: &mut Vec<Entry>) -> Option<Shape>
    ensures { TakesValue result (stack entries.old.items) (stack entries.new.items) }
{
    match entries.pop()? {
        Entry::Value(shape) => Some(shape),
        Entry::Part(_) => None,
        Entry::Mark => None,
        Entry::Turn => None,
    }
}

#[tactic(auto, using(crate::proofs::CheckLaws::steps))]
fn take_two(entries: &mut Vec<Entry>) -> bool
    ensures { TakesTwo result (stack entries.old.items) (stack entries.new.items) }
{
    let Some(_) = take_value(entries) else {
        return false;
    };
    let Some(_) = take_value(entries) else {
        return false;
    };
    true
}

#[tactic(auto, using(crate::proofs::Stacks::stacks))]
fn take_turn(entries: &mut Vec<Entry>) -> bool
    ensures { TakesTurn result (stack entries.old.items) (stack entries.new.items) }
{
    match entries.pop() {
        Some(Entry::Turn) => true,
        Some(Entry::Value(_)) => false,
        Some(Entry::Part(_)) => false,
        Some(Entry::Mark) => false,
        None => false,
    }
}

#[tactic(auto, using(crate::proofs::Stacks::stacks))]
fn take_mark(entries: &mut Vec<Entry>) -> bool
    ensures { TakesMark result (stack entries.old.items) (stack entries.new.items) }
{
    match entries.pop() {
        Some(Entry::Mark) => true,
        Some(Entry::Value(_)) => false,
        Some(Entry::Part(_)) => false,
        Some(Entry::Turn) => false,
        None => false,
    }
}

// The parts down to the beginning of their list.
#[tactic(auto, using(crate::proofs::Stacks::stacks))]
fn take_parts(alloc: Global, entries: &mut Vec<Entry>) -> Result<Option<Seq<Option<Shape>>>, Memory>
    ensures { TakesParts result (stack entries.old.items) (stack entries.new.items) }
{
    let mut parts = Vec::new(alloc);
    'taking: while let Some(entry) = entries.pop() {
        match entry {
            Entry::Part(part) => parts.push(part)?,
            Entry::Mark => {
                parts.reverse();
                return Ok(Some(Seq::from_vec(parts)));
            }
            Entry::Value(_) => return Ok(None),
            Entry::Turn => return Ok(None),
        }
    }
    Ok(None)
}

// The number of values down to the beginning of their list.
#[tactic(auto, using(crate::proofs::Stacks::stacks))]
fn count_values(entries: &mut Vec<Entry>) -> Option<usize>
    ensures { Counts result (stack entries.old.items) (stack entries.new.items) }
{
    let mut count = 0;
    'counting: while let Some(entry) = entries.pop() {
        match entry {
            Entry::Value(_) => count += 1,
            Entry::Mark => return Some(count),
            Entry::Part(_) => return None,
            Entry::Turn => return None,
        }
    }
    None
}

// ---- arguments

fn are_values(parts: &[Option<Shape>]) -> bool
    ensures { result ≡ calls.are_values (map part_seen parts.now) }
{
    for part in parts {
        if part.is_none() {
            return false;
        }
    }
    true
}

fn is_literal(part: Option<Shape>) -> bool
    ensures { result ≡ calls.is_literal (part_seen part) }
{
    match part {
        Some(Shape::Literal) => true,
        Some(Shape::Listing(_)) => false,
        Some(Shape::Other) => false,
        None => false,
    }
}

fn is_short_list(part: Option<Shape>) -> bool
    ensures { result ≡ calls.is_short_list (part_seen part) }
{
    match part {
        Some(Shape::Listing(count)) => count <= 7,
        Some(Shape::Literal) => false,
        Some(Shape::Other) => false,
        None => false,
    }
}

// The second of three is a literal.
fn has_dimension(parts: &[Option<Shape>]) -> bool
    ensures { result ≡ calls.has_dimension (map part_seen parts.now) }
{
    match parts {
        [_, dimension, _] => is_literal(*dimension),
        _ => true,
    }
}

// The second of two is a list of one to seven values.
fn has_shape(parts: &[Option<Shape>]) -> bool
    ensures { result ≡ calls.has_shape (map part_seen parts.now) }
{
    match parts {
        [_, extents] => is_short_list(*extents),
        _ => true,
    }
}

fn suits(function: Option<Intrinsic>, parts: &[Option<Shape>]) -> bool
    ensures { result ≡ calls.suits function (map part_seen parts.now) }
{
    match function {
        None => true,
        Some(Intrinsic::Elemental(_)) => are_values(parts),
        Some(Intrinsic::Reduction(_)) => are_values(parts),
        Some(Intrinsic::Spread) => are_values(parts) && has_dimension(parts),
        Some(Intrinsic::Transpose) => are_values(parts),
        Some(Intrinsic::Reshape) => are_values(parts) && has_shape(parts),
    }
}

// ---- what a part of the list does

// Puts one more on top.
#[tactic(auto, using(crate::proofs::Stacks::stacks))]
fn push(entries: &mut Vec<Entry>, entry: Entry) -> Result<(), Memory>
    ensures { OnOk result (stack entries.new.items ≡ entry_seen entry ∷ stack entries.old.items) }
{
    entries.push(entry)?;
    Ok(())
}

#[tactic(auto, using(crate::proofs::CheckLaws::steps))]
fn enclosed(entries: &mut Vec<Entry>) -> Result<bool, Memory>
    ensures { Checks result entries.new.items (calls.enclosed (stack entries.old.items)) }
{
    let Some(_) = take_value(entries) else {
        return Ok(false);
    };
    push(entries, Entry::Value(Shape::Other))?;
    Ok(true)
}

#[tactic(auto, using(crate::proofs::CheckLaws::steps))]
fn infixed(entries: &mut Vec<Entry>) -> Result<bool, Memory>
    ensures { Checks result entries.new.items (calls.infixed (stack entries.old.items)) }
{
    if !take_two(entries) {
        return Ok(false);
    }
    push(entries, Entry::Value(Shape::Other))?;
    Ok(true)
}

#[tactic(auto, using(crate::proofs::CheckLaws::steps))]
fn single(entries: &mut Vec<Entry>) -> Result<bool, Memory>
    ensures { Checks result entries.new.items (calls.single (stack entries.old.items)) }
{
    let Some(shape) = take_value(entries) else {
        return Ok(false);
    };
    push(entries, Entry::Part(Some(shape)))?;
    Ok(true)
}

#[tactic(auto, using(crate::proofs::CheckLaws::steps))]
fn bounded(entries: &mut Vec<Entry>) -> Result<bool, Memory>
    ensures { Checks result entries.new.items (calls.bounded (stack entries.old.items)) }
{
    if !take_two(entries) {
        return Ok(false);
    }
    push(entries, Entry::Part(None))?;
    Ok(true)
}

#[tactic(auto, using(crate::proofs::CheckLaws::steps))]
fn strided(entries: &mut Vec<Entry>) -> Result<bool, Memory>
    ensures { Checks result entries.new.items (calls.strided (stack entries.old.items)) }
{
    let Some(_) = take_value(entries) else {
        return Ok(false);
    };
    if !take_two(entries) {
        return Ok(false);
    }
    push(entries, Entry::Part(None))?;
    Ok(true)
}

#[tactic(auto, using(crate::proofs::CheckLaws::steps))]
fn turned(entries: &mut Vec<Entry>) -> Result<bool, Memory>
    ensures { Checks result entries.new.items (calls.turned (stack entries.old.items)) }
{
    if !take_two(entries) {
        return Ok(false);
    }
    let Some(_) = take_value(entries) else {
        return Ok(false);
    };
    push(entries, Entry::Turn)?;
    Ok(true)
}

#[tactic(auto, using(crate::proofs::CheckLaws::steps))]
fn turned_round(entries: &mut Vec<Entry>) -> Result<bool, Memory>
    ensures { Checks result entries.new.items (calls.turned_round (stack entries.old.items)) }
{
    if !take_two(entries) {
        return Ok(false);
    }
    if !take_turn(entries) {
        return Ok(false);
    }
    push(entries, Entry::Turn)?;
    Ok(true)
}

#[tactic(auto, using(crate::proofs::CheckLaws::steps))]
fn looped(entries: &mut Vec<Entry>) -> Result<bool, Memory>
    ensures { Checks result entries.new.items (calls.looped (stack entries.old.items)) }
{
    if !take_turn(entries) {
        return Ok(false);
    }
    if !take_mark(entries) {
        return Ok(false);
    }
    push(entries, Entry::Value(Shape::Other))?;
    Ok(true)
}

#[tactic(auto, using(crate::proofs::CheckLaws::steps))]
fn counted(entries: &mut Vec<Entry>) -> Result<bool, Memory>
    ensures { Checks result entries.new.items (calls.counted (calls.count_above (stack entries.old.items) 0)) }
{
    let Some(count) = count_values(entries) else {
        return Ok(false);
    };
    push(entries, Entry::Value(Shape::Listing(count)))?;
    Ok(true)
}

#[tactic(auto, using(crate::proofs::CheckLaws::steps))]
fn listed(
    alloc: Global,
    entries: &mut Vec<Entry>,
    function: Option<Intrinsic>,
) -> Result<bool, Memory>
    ensures { Checks result entries.new.items
        (calls.listed function (calls.parts_above (stack entries.old.items) [])) }
{
    let Some(parts) = take_parts(alloc, entries)? else {
        return Ok(false);
    };
    if !suits(function, parts.as_slice()) {
        return Ok(false);
    }
    push(entries, Entry::Value(Shape::Other))?;
    Ok(true)
}

// ---- the list

fn check(
    alloc: Global,
    entries: &mut Vec<Entry>,
    node: &Node,
    functions: &Functions,
) -> Result<bool, Memory>
    ensures { Checks result entries.new.items
        (calls.check (function_in functions.now) (node_seen node.now) (stack entries.old.items)) }
{
    match node {
        Node::Digits(_) => {
            push(entries, Entry::Value(Shape::Literal))?;
            Ok(true)
        }
        Node::Truth(_) => {
            push(entries, Entry::Value(Shape::Other))?;
            Ok(true)
        }
        Node::Name(_) => {
            push(entries, Entry::Value(Shape::Other))?;
            Ok(true)
        }
        Node::Parenthesis => enclosed(entries),
        Node::Prefix(_) => enclosed(entries),
        Node::Infix(_) => infixed(entries),
        Node::One => single(entries),
        Node::Bounds => bounded(entries),
        Node::Stride => strided(entries),
        Node::Begin => {
            push(entries, Entry::Mark)?;
            Ok(true)
        }
        Node::Listed(name) => listed(alloc, entries, functions.read(*name)),
        Node::Values => counted(entries),
        Node::Inner(_) => turned(entries),
        Node::Outer(_) => turned_round(entries),
        Node::Looped => looped(entries),
    }
}

/// Whether something is left of a list.
pub(crate) fn suit(alloc: Global, nodes: &[Node], functions: &Functions) -> Result<bool, Memory>
    ensures { Tells result (calls.check_all (function_in functions.now) (nodes_seen nodes.now) []) }
{
    let mut entries = Vec::new(alloc);
    'checking: for node in nodes {
        if !check(alloc, &mut entries, node, functions)? {
            return Ok(false);
        }
    }
    Ok(true)
}
