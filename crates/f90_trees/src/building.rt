//! The tree of an expression, from its list with a stack.
ghost use Rattle.std.specs.Prelude.{◌≡◌, ◌∷◌, [], IfOk, OnOk, map, min, pos};
ghost use Rattle.tree.specs.Limits.{greatest_literal};
ghost use Rattle.tree.specs.declared.functions.Intrinsic.TheVariants as functions;
ghost use Rattle.tree.specs.Plain.{Number, Named, expressions, subscripts};
ghost use Rattle.tree.specs.View.{expression_of, subscript_of};
ghost use Rattle.f90_grammar.specs.Phrases.{value_of_digits, arguments90_of, natural_in, list_in};
ghost use Rattle.f90_expressions.specs.Views.{node_seen, nodes_seen};
ghost use Rattle.reading.specs.Signs.{sign_view, argument_of, signed};
ghost use Rattle.f90_trees.specs.Building as building;
ghost use Rattle.f90_trees.specs.Building.{held_dimension, called_held};
ghost use Rattle.f90_trees.specs.Hiding.{function_in};
ghost use Rattle.f90_trees.specs.Views.{stack, entry_seen, TakesValue, TakesTwo, TakesTurn, TakesMark, TakesParts};
ghost use Rattle.f90_trees.specs.Views.{TakesValues, Builds, IsSole, Makes};

use crate::functions::Functions;
use f90_expressions::{Node, literal};
use reading::Sign;
use std::alloc::Global;
use tree::{Expr, GREATEST_LITERAL, Intrinsic, Memory, Name, Op, Red, Ref, Seq, Sub, Turn};

/// What lies on the stack: a value, a part of a list, the beginning of a list, or the value under loops, the innermost
/// loop first.
#[derive(Drop)]
pub(crate) enum Entry {
    Value(Expr),
    Part(Sub),
    Mark,
    Turn(Expr, Seq<Turn>),
}

// ---- what lies on top

#[tactic(auto, using(crate::proofs::Stacks::stacks))]
fn take_value(entries: &mut Vec<Entry>) -> Option<Expr>
    ensures { TakesValue result (stack entries.old.items) (stack entries.new.items) }
{
    match entries.pop()? {
        Entry::Value(expr) => Some(expr),
        Entry::Part(_) => None,
        Entry::Mark => None,
        Entry::Turn(_, _) => None,
    }
}

#[tactic(auto, using(crate::proofs::BuildLaws::steps))]
fn take_two(entries: &mut Vec<Entry>) -> Option<(Expr, Expr)>
    ensures { TakesTwo result (stack entries.old.items) (stack entries.new.items) }
{
    let Some(second) = take_value(entries) else {
        return None;
    };
    let Some(first) = take_value(entries) else {
        return None;
    };
    Some((first, second))
}

#[tactic(auto, using(crate::proofs::Stacks::stacks))]
fn take_turn(entries: &mut Vec<Entry>) -> Option<(Expr, Seq<Turn>)>
    ensures { TakesTurn result (stack entries.old.items) (stack entries.new.items) }
{
    match entries.pop()? {
        Entry::Turn(expr, loops) => Some((expr, loops)),
        Entry::Value(_) => None,
        Entry::Part(_) => None,
        Entry::Mark => None,
    }
}

#[tactic(auto, using(crate::proofs::Stacks::stacks))]
fn take_mark(entries: &mut Vec<Entry>) -> bool
    ensures { TakesMark result (stack entries.old.items) (stack entries.new.items) }
{
    let Some(entry) = entries.pop() else {
        return false;
    };
    match entry {
        Entry::Mark => true,
        Entry::Value(_) => false,
        Entry::Part(_) => false,
        Entry::Turn(_, _) => false,
    }
}

// The parts down to the beginning of their list.
#[tactic(auto, using(crate::proofs::Stacks::stacks))]
fn take_parts(alloc: Global, entries: &mut Vec<Entry>) -> Result<Option<Seq<Sub>>, Memory>
    ensures { TakesParts result (stack entries.old.items) (stack entries.new.items) }
{
    let mut parts = Vec::new(alloc);
    'taking: while let Some(entry) = entries.pop() {
        match entry {
            Entry::Part(part) => parts.push(part)?,
            Entry::Mark => {
                parts.reverse();
                return Ok(Some(Seq::from_vec(parts)));
            }
            Entry::Value(_) => return Ok(None),
            Entry::Turn(_, _) => return Ok(None),
        }
    }
    Ok(None)
}

// The values down to the beginning of their list.
#[tactic(auto, using(crate::proofs::Stacks::stacks))]
fn take_values(alloc: Global, entries: &mut Vec<Entry>) -> Result<Option<Seq<Expr>>, Memory>
    ensures { TakesValues result (stack entries.old.items) (stack entries.new.items) }
{
    let mut values = Vec::new(alloc);
    'taking: while let Some(entry) = entries.pop() {
        match entry {
            Entry::Value(value) => values.push(value)?,
            Entry::Mark => {
                values.reverse();
                return Ok(Some(Seq::from_vec(values)));
            }
            Entry::Part(_) => return Ok(None),
            Entry::Turn(_, _) => return Ok(None),
        }
    }
    Ok(None)
}

// ---- what a part of the list does

// Puts one more on top.
#[tactic(auto, using(crate::proofs::Stacks::stacks))]
fn put(entries: &mut Vec<Entry>, entry: Entry) -> Result<(), Memory>
    ensures { OnOk result (stack entries.new.items ≡ entry_seen entry ∷ stack entries.old.items) }
{
    entries.push(entry)?;
    Ok(())
}

// The value of a literal, up to the greatest.
fn number(digits: &[u8]) -> i128
    ensures { result ≡ pos (min (value_of_digits digits.now) greatest_literal) }
{
    match literal(digits) {
        Some(value) => value as i128,
        None => GREATEST_LITERAL,
    }
}

#[tactic(auto, using(tree::proofs::Equations::expression_equations))]
fn signed(alloc: Global, sign: Sign, expr: Expr) -> Result<Expr, Memory>
    ensures { IfOk result (λ made. expression_of made ≡ signed (sign_view sign) (expression_of expr)) }
{
    match sign {
        Sign::Plus => Ok(expr),
        Sign::Minus => Ok(Expr::Un(Op::Neg, Box::new(alloc, expr)?)),
        Sign::Negation => Ok(Expr::Un(Op::Not, Box::new(alloc, expr)?)),
    }
}

#[tactic(auto, using(crate::proofs::BuildLaws::steps))]
fn prefix(alloc: Global, entries: &mut Vec<Entry>, sign: Sign) -> Result<bool, Memory>
    ensures { Builds result entries.new.items (building.prefixed (sign_view sign) (stack entries.old.items)) }
{
    let Some(expr) = take_value(entries) else {
        return Ok(false);
    };
    let expr = signed(alloc, sign, expr)?;
    put(entries, Entry::Value(expr))?;
    Ok(true)
}

#[tactic(auto, using(crate::proofs::BuildLaws::steps))]
fn infix(alloc: Global, entries: &mut Vec<Entry>, op: Op) -> Result<bool, Memory>
    ensures { Builds result entries.new.items (building.infixed op (stack entries.old.items)) }
{
    let Some((left, right)) = take_two(entries) else {
        return Ok(false);
    };
    let left = Box::new(alloc, left)?;
    let right = Box::new(alloc, right)?;
    put(entries, Entry::Value(Expr::Bin(op, left, right)))?;
    Ok(true)
}

#[tactic(auto, using(crate::proofs::BuildLaws::steps))]
fn single(entries: &mut Vec<Entry>) -> Result<bool, Memory>
    ensures { Builds result entries.new.items (building.single (stack entries.old.items)) }
{
    let Some(expr) = take_value(entries) else {
        return Ok(false);
    };
    put(entries, Entry::Part(Sub::One(expr)))?;
    Ok(true)
}

#[tactic(auto, using(crate::proofs::BuildLaws::steps))]
fn bounded(entries: &mut Vec<Entry>) -> Result<bool, Memory>
    ensures { Builds result entries.new.items (building.bounded (stack entries.old.items)) }
{
    let Some((lower, upper)) = take_two(entries) else {
        return Ok(false);
    };
    put(entries, Entry::Part(Sub::Part(lower, upper, Expr::Int(1))))?;
    Ok(true)
}

#[tactic(auto, using(crate::proofs::BuildLaws::steps))]
fn strided(entries: &mut Vec<Entry>) -> Result<bool, Memory>
    ensures { Builds result entries.new.items (building.strided (stack entries.old.items)) }
{
    let Some(stride) = take_value(entries) else {
        return Ok(false);
    };
    let Some((lower, upper)) = take_two(entries) else {
        return Ok(false);
    };
    put(entries, Entry::Part(Sub::Part(lower, upper, stride)))?;
    Ok(true)
}

fn one_loop(alloc: Global, turn: Turn) -> Result<Seq<Turn>, Memory>
    ensures { IfOk result (λ loops. loops ≡ turn ∷ []) }
{
    let mut loops = Seq::new(alloc);
    loops.push(turn)?;
    Ok(loops)
}

fn one_value(alloc: Global, expr: Expr) -> Result<Seq<Expr>, Memory>
    ensures { IfOk result (λ values. values ≡ expr ∷ []) }
{
    let mut values = Seq::new(alloc);
    values.push(expr)?;
    Ok(values)
}

#[tactic(auto, using(crate::proofs::BuildLaws::steps))]
fn turned(alloc: Global, entries: &mut Vec<Entry>, var: Name) -> Result<bool, Memory>
    ensures { Builds result entries.new.items (building.turned var (stack entries.old.items)) }
{
    let Some((first, last)) = take_two(entries) else {
        return Ok(false);
    };
    let Some(expr) = take_value(entries) else {
        return Ok(false);
    };
    let loops = one_loop(alloc, Turn { var, first, last })?;
    put(entries, Entry::Turn(expr, loops))?;
    Ok(true)
}

#[tactic(auto, using(crate::proofs::BuildLaws::steps))]
fn turned_round(entries: &mut Vec<Entry>, var: Name) -> Result<bool, Memory>
    ensures { Builds result entries.new.items (building.turned_round var (stack entries.old.items)) }
{
    let Some((first, last)) = take_two(entries) else {
        return Ok(false);
    };
    let Some((expr, mut loops)) = take_turn(entries) else {
        return Ok(false);
    };
    loops.push(Turn { var, first, last })?;
    put(entries, Entry::Turn(expr, loops))?;
    Ok(true)
}

#[tactic(auto, using(crate::proofs::BuildLaws::steps))]
fn looped(alloc: Global, entries: &mut Vec<Entry>) -> Result<bool, Memory>
    ensures { Builds result entries.new.items (building.looped (stack entries.old.items)) }
{
    let Some((expr, loops)) = take_turn(entries) else {
        return Ok(false);
    };
    if !take_mark(entries) {
        return Ok(false);
    }
    let values = one_value(alloc, expr)?;
    put(entries, Entry::Value(Expr::List(values, loops)))?;
    Ok(true)
}

#[tactic(auto, using(crate::proofs::BuildLaws::steps))]
fn constructed(alloc: Global, entries: &mut Vec<Entry>) -> Result<bool, Memory>
    ensures { Builds result entries.new.items
        (building.constructed (building.values_above (stack entries.old.items) [])) }
{
    let Some(values) = take_values(alloc, entries)? else {
        return Ok(false);
    };
    put(entries, Entry::Value(Expr::List(values, Seq::new(alloc))))?;
    Ok(true)
}

// ---- calls

#[tactic(auto, using(tree::proofs::Equations::expression_equations))]
fn argument(part: Sub) -> Expr
    ensures { expression_of result ≡ argument_of (subscript_of part) }
{
    match part {
        Sub::One(expr) => expr,
        Sub::Part(lower, _, _) => lower,
    }
}

#[tactic(auto, using(crate::proofs::BuildLaws::arguments))]
fn arguments(alloc: Global, parts: Seq<Sub>) -> Result<Seq<Expr>, Memory>
    ensures { IfOk result (λ exprs. map expression_of exprs ≡ arguments90_of (map subscript_of parts)) }
{
    let mut exprs = Seq::new(alloc);
    for part in parts.into_vec() {
        exprs.push(argument(part))?;
    }
    Ok(exprs)
}

#[tactic(auto, using(tree::proofs::Equations::expression_equations))]
fn dimension(expr: &Expr) -> usize
    ensures { result ≡ held_dimension (natural_in (expression_of expr.now)) }
{
    match expr {
        Expr::Int(number) => natural(*number),
        Expr::Truth(_) => 0,
        Expr::Item(_) => 0,
        Expr::Un(_, _) => 0,
        Expr::Bin(_, _, _) => 0,
        Expr::Call(_, _) => 0,
        Expr::List(_, _) => 0,
        Expr::Spread(_, _, _) => 0,
        Expr::Transpose(_) => 0,
        Expr::Reshape(_, _) => 0,
        Expr::Reduce(_, _) => 0,
    }
}

// A number as a dimension.
fn natural(number: i128) -> usize
    ensures { result ≡ held_dimension (natural_in (Number number)) }
{
    if number < 0 {
        return 0;
    }
    if number > usize::MAX as i128 {
        return usize::MAX;
    }
    number as usize
}

// The values of a list without loops or under them.
#[tactic(auto, using(tree::proofs::Equations::expression_equations))]
fn values(alloc: Global, expr: Expr) -> Seq<Expr>
    ensures { expressions (map expression_of result) ≡ list_in (expression_of expr) }
{
    match expr {
        Expr::List(values, _) => values,
        Expr::Int(_) => Seq::new(alloc),
        Expr::Truth(_) => Seq::new(alloc),
        Expr::Item(_) => Seq::new(alloc),
        Expr::Un(_, _) => Seq::new(alloc),
        Expr::Bin(_, _, _) => Seq::new(alloc),
        Expr::Call(_, _) => Seq::new(alloc),
        Expr::Spread(_, _, _) => Seq::new(alloc),
        Expr::Transpose(_) => Seq::new(alloc),
        Expr::Reshape(_, _) => Seq::new(alloc),
        Expr::Reduce(_, _) => Seq::new(alloc),
    }
}

#[tactic(auto, using(crate::proofs::BuildLaws::item_made))]
fn named(name: Name, subs: Seq<Sub>) -> Expr
    ensures { expression_of result ≡ Named name (subscripts (map subscript_of subs)) }
{
    Expr::Item(Ref { name, subs })
}

fn reduced(alloc: Global, reduction: Red, name: Name, parts: Seq<Sub>) -> Result<Expr, Memory>
    ensures { IfOk result (λ expr. expression_of expr
        ≡ called_held (Some (functions.Reduction reduction)) name (map subscript_of parts)) }
{
    if parts.len() != 1 {
        return Ok(named(name, parts));
    }
    let mut parts = parts.into_vec();
    let array = argument(parts.pop().unwrap());
    Ok(Expr::Reduce(reduction, Box::new(alloc, array)?))
}

fn spread(alloc: Global, name: Name, parts: Seq<Sub>) -> Result<Expr, Memory>
    ensures { IfOk result (λ expr. expression_of expr
        ≡ called_held (Some functions.Spread) name (map subscript_of parts)) }
{
    if parts.len() != 3 {
        return Ok(named(name, parts));
    }
    let mut parts = parts.into_vec();
    let extent = argument(parts.pop().unwrap());
    let dimension = dimension(&argument(parts.pop().unwrap()));
    let array = argument(parts.pop().unwrap());
    let array = Box::new(alloc, array)?;
    let extent = Box::new(alloc, extent)?;
    Ok(Expr::Spread(array, dimension, extent))
}

fn transposed(alloc: Global, name: Name, parts: Seq<Sub>) -> Result<Expr, Memory>
    ensures { IfOk result (λ expr. expression_of expr
        ≡ called_held (Some functions.Transpose) name (map subscript_of parts)) }
{
    if parts.len() != 1 {
        return Ok(named(name, parts));
    }
    let mut parts = parts.into_vec();
    let array = argument(parts.pop().unwrap());
    Ok(Expr::Transpose(Box::new(alloc, array)?))
}

fn reshaped(alloc: Global, name: Name, parts: Seq<Sub>) -> Result<Expr, Memory>
    ensures { IfOk result (λ expr. expression_of expr
        ≡ called_held (Some functions.Reshape) name (map subscript_of parts)) }
{
    if parts.len() != 2 {
        return Ok(named(name, parts));
    }
    let mut parts = parts.into_vec();
    let extents = values(alloc, argument(parts.pop().unwrap()));
    let array = argument(parts.pop().unwrap());
    Ok(Expr::Reshape(Box::new(alloc, array)?, extents))
}

// A name with a list in parentheses.
fn called(
    alloc: Global,
    function: Option<Intrinsic>,
    name: Name,
    parts: Seq<Sub>,
) -> Result<Expr, Memory>
    ensures { IfOk result (λ expr. expression_of expr ≡ called_held function name (map subscript_of parts)) }
{
    match function {
        None => Ok(named(name, parts)),
        Some(Intrinsic::Elemental(function)) => Ok(Expr::Call(function, arguments(alloc, parts)?)),
        Some(Intrinsic::Reduction(reduction)) => reduced(alloc, reduction, name, parts),
        Some(Intrinsic::Spread) => spread(alloc, name, parts),
        Some(Intrinsic::Transpose) => transposed(alloc, name, parts),
        Some(Intrinsic::Reshape) => reshaped(alloc, name, parts),
    }
}

fn listed(
    alloc: Global,
    entries: &mut Vec<Entry>,
    function: Option<Intrinsic>,
    name: Name,
) -> Result<bool, Memory>
    ensures { Builds result entries.new.items
        (building.listed function name (building.parts_above (stack entries.old.items) [])) }
{
    let Some(parts) = take_parts(alloc, entries)? else {
        return Ok(false);
    };
    let expr = called(alloc, function, name, parts)?;
    put(entries, Entry::Value(expr))?;
    Ok(true)
}

// ---- the list

fn build(
    alloc: Global,
    entries: &mut Vec<Entry>,
    node: &Node,
    functions: &Functions,
) -> Result<bool, Memory>
    ensures { Builds result entries.new.items
        (building.build (function_in functions.now) (node_seen node.now) (stack entries.old.items)) }
{
    match node {
        Node::Digits(digits) => {
            put(entries, Entry::Value(Expr::Int(number(digits.as_slice()))))?;
            Ok(true)
        }
        Node::Truth(truth) => {
            put(entries, Entry::Value(Expr::Truth(*truth)))?;
            Ok(true)
        }
        Node::Name(name) => {
            put(entries, Entry::Value(named(*name, Seq::new(alloc))))?;
            Ok(true)
        }
        Node::Parenthesis => Ok(true),
        Node::Prefix(sign) => prefix(alloc, entries, *sign),
        Node::Infix(op) => infix(alloc, entries, *op),
        Node::One => single(entries),
        Node::Bounds => bounded(entries),
        Node::Stride => strided(entries),
        Node::Begin => {
            put(entries, Entry::Mark)?;
            Ok(true)
        }
        Node::Listed(name) => listed(alloc, entries, functions.read(*name), *name),
        Node::Values => constructed(alloc, entries),
        Node::Inner(name) => turned(alloc, entries, *name),
        Node::Outer(name) => turned_round(entries, *name),
        Node::Looped => looped(alloc, entries),
    }
}

// The value that alone is left.
fn sole(entries: &mut Vec<Entry>) -> Option<Expr>
    ensures { IsSole result (stack entries.old.items) }
{
    let Some(expr) = take_value(entries) else {
        return None;
    };
    if !entries.is_empty() {
        return None;
    }
    Some(expr)
}

/// What a list makes.
pub(crate) fn made(
    alloc: Global,
    nodes: &[Node],
    functions: &Functions,
) -> Result<Option<Expr>, Memory>
    ensures { Makes result (building.build_all (function_in functions.now) (nodes_seen nodes.now) []) }
{
    let mut entries = Vec::new(alloc);
    'building: for node in nodes {
        if !build(alloc, &mut entries, node, functions)? {
            return Ok(None);
        }
    }
    Ok(sole(&mut entries))
}
