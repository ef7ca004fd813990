//! Masks, and the statements that assign them.
ghost use Rattle.std.specs.Prelude.{◌≡◌, ◌++◌, ◌∷◌, [], ◌-◌, IfOk, OnOk, map};
ghost use Rattle.std.specs.Option.{option_map};
ghost use Rattle.tree.specs.Plain.{Binary, Logic, Unary};
ghost use Rattle.tree.specs.declared.ops.Op.TheVariants.{And, Not};
ghost use Rattle.tree.specs.View.{expression_of, reference_of};
ghost use Rattle.nest.specs.View.{guarded_of, made_of, part_of};
ghost use Rattle.if_convert.specs.Masks.{mask_name, mask, none_left, under_mask, sets, asks, mask_scalar, masks_from};
ghost use Rattle.if_convert.specs.Masks.{all_parts_of};
ghost use Rattle.if_convert.specs.Points.{cleared};

use crate::points::Jumped;
use itoa::Buffer;
use nest::{GuardedStmt, Made, Part};
use std::alloc::Global;
use tree::{Expr, Kind, Memory, Name, Op, Ref, Seq, both};

#[tactic(auto, using(crate::proofs::Names::mask_is_name))]
fn mask_name(alloc: Global, number: u32) -> Result<Name, Memory>
    ensures { IfOk result (λ name. name ≡ mask_name number) }
{
    let mut text = Vec::from_slice(alloc, b"FV_MASK_")?;
    let count = u64::from(number) + 1;
    text.extend_from_slice(Buffer::new().format(count).as_bytes())?;
    match Name::read(text.as_slice()) {
        Some(name) => Ok(name),
        None => unreachable!(),
    }
}

#[tactic(auto, using(tree::proofs::Equations::expression_equations))]
fn scalar(alloc: Global, name: Name) -> Ref
    ensures { reference_of result ≡ mask_scalar name }
{
    Ref {
        name,
        subs: Seq::new(alloc),
    }
}

pub(crate) fn mask(alloc: Global, number: u32) -> Result<Expr, Memory>
    ensures { IfOk result (λ e. expression_of e ≡ mask number) }
{
    let name = mask_name(alloc, number)?;
    Ok(Expr::Item(scalar(alloc, name)))
}

fn guard_of(alloc: Global, guard: Option<u32>) -> Result<Option<Expr>, Memory>
    ensures { IfOk result (λ e. option_map expression_of e ≡ option_map mask guard) }
{
    match guard {
        Some(number) => Ok(Some(mask(alloc, number)?)),
        None => Ok(None),
    }
}

#[tactic(auto, using(tree::proofs::Equations::expression_equations))]
fn negated(alloc: Global, operand: Expr) -> Result<Expr, Memory>
    ensures { IfOk result (λ e. expression_of e ≡ Unary Not (expression_of operand)) }
{
    Ok(Expr::Un(Op::Not, Box::new(alloc, operand)?))
}

/// That a mask is false.
pub(crate) fn not_mask(alloc: Global, number: u32) -> Result<Expr, Memory>
    ensures { IfOk result (λ e. expression_of e ≡ Unary Not (mask number)) }
{
    negated(alloc, mask(alloc, number)?)
}

#[tactic(auto, using(tree::proofs::Equations::expression_equations))]
fn joined(alloc: Global, left: Expr, right: Expr) -> Result<Expr, Memory>
    ensures { IfOk result (λ e. expression_of e ≡ Binary And (expression_of left) (expression_of right)) }
{
    let (left, right) = both(Box::new(alloc, left), Box::new(alloc, right))?;
    Ok(Expr::Bin(Op::And, left, right))
}

/// That none of these jumps has left, joined by halves.
pub(crate) fn none_left(alloc: Global, jumps: &[Jumped]) -> Result<Expr, Memory>
    ensures { IfOk result (λ e. expression_of e ≡ none_left jumps.now) }
{
    let Some((first, rest)) = jumps.split_first() else {
        return Ok(Expr::Truth(true));
    };
    if rest.is_empty() {
        return not_mask(alloc, first.mask);
    }
    let (front, back) = jumps.split_at(jumps.len() - jumps.len() / 2);
    let (front, back) = both(none_left(alloc, front), none_left(alloc, back))?;
    joined(alloc, front, back)
}

/// A statement of the source under a mask.
pub(crate) fn under(
    alloc: Global,
    guard: Option<u32>,
    stmt: &GuardedStmt,
) -> Result<GuardedStmt, Memory>
    ensures { IfOk result (λ new. guarded_of new ≡ under_mask guard (guarded_of stmt.now)) }
{
    let mut new = stmt.copy(alloc)?;
    if let Some(number) = guard {
        new.guard = Some(mask(alloc, number)?);
    }
    Ok(new)
}

// A mask gets a value, under another one where there is one.
#[tactic(auto, using(nest::proofs::Equations::part_equations, tree::proofs::Equations::expression_equations))]
fn sets(
    alloc: Global,
    line: u32,
    guard: Option<u32>,
    number: u32,
    value: Expr,
) -> Result<Part, Memory>
    ensures { IfOk result (λ part. part_of part ≡ sets line guard number (expression_of value)) }
{
    let name = mask_name(alloc, number)?;
    let guard = guard_of(alloc, guard)?;
    Ok(Part::Run(GuardedStmt {
        line,
        guard,
        left: scalar(alloc, name),
        right: value,
    }))
}

/// Adds that a mask gets a value, under another one where there is one.
pub(crate) fn add_set(
    alloc: Global,
    line: u32,
    guard: Option<u32>,
    number: u32,
    value: bool,
    made: &mut Seq<Part>,
) -> Result<(), Memory>
    ensures { OnOk result (map part_of made.new
        ≡ map part_of made.old ++ sets line guard number (Logic value) ∷ []) }
{
    made.push(sets(alloc, line, guard, number, Expr::Truth(value))?)
}

/// Adds what a mask is asked for, under another one where there is one: there it is false first.
pub(crate) fn add_asked(
    alloc: Global,
    line: u32,
    guard: Option<u32>,
    number: u32,
    value: Expr,
    made: &mut Seq<Part>,
) -> Result<(), Memory>
    ensures { OnOk result (map part_of made.new
        ≡ map part_of made.old ++ asks line guard number (expression_of value)) }
{
    let set = sets(alloc, line, guard, number, value)?;
    if guard.is_some() {
        add_set(alloc, line, None, number, false, made)?;
    }
    made.push(set)
}

/// Adds that the masks from a number on, up to another one, are false.
pub(crate) fn add_cleared(
    alloc: Global,
    line: u32,
    first: u32,
    end: u32,
    made: &mut Seq<Part>,
) -> Result<(), Memory>
    ensures { OnOk result (map part_of made.new
        ≡ map part_of made.old ++ all_parts_of line (cleared first (end - first))) }
{
    for number in first..end {
        add_set(alloc, line, None, number, false, made)?;
    }
    Ok(())
}

/// Adds the masks from a number on, up to another one, as scalars that are made.
pub(crate) fn add_masks(
    alloc: Global,
    first: u32,
    end: u32,
    made: &mut Seq<Made>,
) -> Result<(), Memory>
    ensures { OnOk result (map made_of made.new
        ≡ map made_of made.old ++ masks_from first (end - first)) }
{
    for number in first..end {
        made.push(Made {
            name: mask_name(alloc, number)?,
            kind: Kind::Logical,
            extents: Seq::new(alloc),
        })?;
    }
    Ok(())
}
