//! Parts with masks in place of IFs, labels and jumps.
ghost use Rattle.std.specs.Prelude.{[], None, List, false, map, IfOk, OnOk};
ghost use Rattle.nest.specs.View.{branch_of, loop_of, part_of};
ghost use Rattle.nest.specs.Plain as plain;
ghost use Rattle.if_convert.specs.Arms.{AreAdded, ArmsLeft, IsAdded, arm_added, block_added, converted_list};
ghost use Rattle.if_convert.specs.Converted.{around_loop, converted};
ghost use Rattle.if_convert.specs.Points.{Converted, entered, unless_skipped};

use crate::jumps::jumps_in_choice;
use crate::masks::add_asked;
use crate::points::{MaskPoint, sum};
use nest::{Loop, NestArm, Part};
use std::alloc::Global;
use tree::{Memory, Seq};

/// Adds what stands for a part at a point of a block, which stands in an IF or not and has a mask of its own, maybe.
#[cycle(bodies)]
fn add_part(
    alloc: Global,
    line: u32,
    deep: bool,
    own: Option<u32>,
    part: &Part,
    point: &mut MaskPoint,
    made: &mut Seq<Part>,
) -> Result<(), Memory>
    ensures { OnOk result (IsAdded line (converted line deep own (part_of part.now) point.old)
        point.new (map part_of made.old) (map part_of made.new)) }
{
    match part {
        Part::Run(stmt) => point.keep(alloc, line, stmt, made),
        Part::Turns(turns, body) => add_loop(alloc, line, turns, body, point, made),
        Part::Choice(arms, other) => {
            if point.skips {
                return Ok(());
            }
            let jumps = jumps_in_choice(arms, other)?;
            point.number(deep, jumps)?;
            point.clear(alloc, line, deep, jumps, made)?;
            let mut end = MaskPoint::entered(alloc, point.guard, point.jump, point.mask);
            let last = add_arms(alloc, line, arms, &mut end, made)?;
            add_else(alloc, line, last, other, &mut end, made)?;
            point.rejoin(alloc, line, own, &end, made)
        }
        Part::Label(label) => point.pass(alloc, line, own, *label, made),
        Part::Jump(label) => point.go_to(alloc, line, deep, *label, made),
    }
}

#[cycle(bodies)]
#[tactic(auto, using(nest::proofs::Equations::part_equations))]
fn add_loop(
    alloc: Global,
    line: u32,
    turns: &Loop,
    body: &Seq<Part>,
    point: &mut MaskPoint,
    made: &mut Seq<Part>,
) -> Result<(), Memory>
    ensures { OnOk result (IsAdded line
        (unless_skipped point.old.skips point.old (around_loop line (loop_of turns.now) point.old
        (converted_list line false None (map part_of body.now) (entered None point.old.mask point.old.mask))))
        point.new (map part_of made.old) (map part_of made.new)) }
{
    if point.skips {
        return Ok(());
    }
    let mut inner = MaskPoint::entered(alloc, None, point.mask, point.mask);
    let mut parts = Seq::new(alloc);
    add_parts(alloc, line, false, None, body, &mut inner, &mut parts)?;
    point.mask = inner.mask;
    made.push(Part::Turns(turns.copy(alloc)?, parts))
}

/// Adds what stands for parts.
#[cycle(bodies)]
pub(crate) fn add_parts(
    alloc: Global,
    line: u32,
    deep: bool,
    own: Option<u32>,
    parts: &Seq<Part>,
    point: &mut MaskPoint,
    made: &mut Seq<Part>,
) -> Result<(), Memory>
    ensures { OnOk result (IsAdded line (converted_list line deep own (map part_of parts.now) point.old)
        point.new (map part_of made.old) (map part_of made.new)) }
{
    for part in parts.as_slice() {
        add_part(alloc, line, deep, own, part, point, made)?;
    }
    Ok(())
}

// The arms of an IF; each but the first has a further mask before its own. The last one's mask is answered.
#[cycle(bodies)]
fn add_arms(
    alloc: Global,
    line: u32,
    arms: &Seq<NestArm>,
    point: &mut MaskPoint,
    made: &mut Seq<Part>,
) -> Result<Option<u32>, Memory>
    ensures { IfOk result (λ last. (other : List plain.Part) (all : Converted) (old : List plain.Part)
        → ArmsLeft line None (map branch_of arms.now) other point.old (map part_of made.old) all old
        → ArmsLeft line last [] other point.new (map part_of made.new) all old) }
{
    let mut last = None;
    for arm in arms.as_slice() {
        point.begin_rest(alloc, line, last, made)?;
        last = Some(point.mask);
        add_arm(alloc, line, arm, point, made)?;
    }
    Ok(last)
}

// The ELSE part, if there is one, behind an arm with this mask.
#[cycle(bodies)]
fn add_else(
    alloc: Global,
    line: u32,
    last: Option<u32>,
    other: &Seq<Part>,
    point: &mut MaskPoint,
    made: &mut Seq<Part>,
) -> Result<(), Memory>
    ensures { OnOk result ((all : Converted) (old : List plain.Part)
        → ArmsLeft line last [] (map part_of other.now) point.old (map part_of made.old) all old
        → AreAdded line all point.new old (map part_of made.new)) }
{
    if other.is_empty() {
        return Ok(());
    }
    point.begin_rest(alloc, line, last, made)?;
    add_block(alloc, line, point.guard, other, point, made)
}

// An arm, under a mask that is asked for its condition.
#[cycle(bodies)]
fn add_arm(
    alloc: Global,
    line: u32,
    arm: &NestArm,
    point: &mut MaskPoint,
    made: &mut Seq<Part>,
) -> Result<(), Memory>
    ensures { OnOk result (IsAdded line (arm_added line (branch_of arm.now) point.old)
        point.new (map part_of made.old) (map part_of made.new)) }
{
    let next = sum(point.mask, 1)?;
    let own = point.mask;
    add_asked(alloc, line, point.guard, own, arm.test.copy(alloc)?, made)?;
    point.mask = next;
    add_block(alloc, line, Some(own), &arm.body, point, made)
}

// A block of an IF under a mask, behind the point with the next numbers.
#[cycle(bodies)]
fn add_block(
    alloc: Global,
    line: u32,
    own: Option<u32>,
    parts: &Seq<Part>,
    point: &mut MaskPoint,
    made: &mut Seq<Part>,
) -> Result<(), Memory>
    ensures { OnOk result (IsAdded line (block_added line own (map part_of parts.now) point.old)
        point.new (map part_of made.old) (map part_of made.new)) }
{
    let mut end = MaskPoint::entered(alloc, own, point.jump, point.mask);
    add_parts(alloc, line, true, own, parts, &mut end, made)?;
    point.follow(&end)
}
