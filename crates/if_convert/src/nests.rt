//! Nests with masks in place of IFs, labels and jumps.
ghost use Rattle.std.specs.Prelude.{◌≡◌, IfOk, IfSome, All, map};
ghost use Rattle.std.specs.Option.{option_map};
ghost use Rattle.nest.specs.Bodies.{nest_loops};
ghost use Rattle.nest.specs.View.{loop_of, made_of, nest_of, part_of};
ghost use Rattle.nest.specs.Plain.{parts};
ghost use Rattle.nest_order.specs.shapes.Shapes.{IsNormal, IsPlain};
ghost use Rattle.if_convert.specs.Converted.{converted_loop, converted_nest};

use crate::bodies::add_parts;
use crate::masks::add_masks;
use crate::points::MaskPoint;
use nest::{Loop, Made, Nest, Part};
use nest_rewrite::with_parts;
use std::alloc::Global;
use tree::{Memory, Seq};

fn copy_made(alloc: Global, made: &Seq<Made>) -> Result<Seq<Made>, Memory>
    ensures { IfOk result (λ copies. map made_of copies ≡ map made_of made.now) }
{
    let mut copies = Seq::new(alloc);
    for array in made.as_slice() {
        copies.push(array.copy(alloc)?)?;
    }
    Ok(copies)
}

#[tactic(auto, using(nest::proofs::Equations::part_equations))]
fn convert_loop(
    alloc: Global,
    nest: &Nest,
    masks: u32,
    turns: &Loop,
    body: &Seq<Part>,
) -> Result<Nest, Memory>
    ensures { IfOk result (λ new. nest_of new
        ≡ converted_loop (nest_of nest.now) masks (loop_of turns.now) (parts (map part_of body.now))) }
{
    let mut point = MaskPoint::entered(alloc, None, masks, masks);
    let mut parts = Seq::new(alloc);
    add_parts(alloc, nest.line, false, None, body, &mut point, &mut parts)?;
    let mut made = copy_made(alloc, &nest.made)?;
    add_masks(alloc, masks, point.mask, &mut made)?;
    let after = nest.after.copy(alloc)?;
    let body = Part::Turns(turns.copy(alloc)?, parts);
    let mut new = with_parts(alloc, nest, body, made, after)?;
    new.masks = point.mask;
    Ok(new)
}

/// The nest with masks in place of its IFs, labels and jumps, which nothing but loops and statements is left of; so
/// many masks were made before in the program. None where the nest is no loop.
#[tactic(auto, unfolding(crate::specs::Converted::converted_nest))]
pub fn convert(alloc: Global, nest: &Nest, masks: u32) -> Result<Option<Nest>, Memory>
    ensures converted { IfOk result (λ new. option_map nest_of new ≡ converted_nest masks (nest_of nest.now)) }
    ensures plain { IfOk result (λ new. IfSome new (λ m. All IsNormal (nest_loops (nest_of nest.now))
        → IsPlain (nest_of m).body)) }
{
    match &nest.body {
        Part::Turns(turns, body) => Ok(Some(convert_loop(alloc, nest, masks, turns, body)?)),
        Part::Run(_) => Ok(None),
        Part::Choice(_, _) => Ok(None),
        Part::Label(_) => Ok(None),
        Part::Jump(_) => Ok(None),
    }
}
