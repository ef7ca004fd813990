//! Nests in which each loop goes from 1 by 1.
ghost use Rattle.std.specs.Prelude.{◌≡◌, ◌≤◌, [], All, length, map, IfOk};
ghost use Rattle.std.specs.Option.{option_map};
ghost use Rattle.tree.specs.View.{block_of};
ghost use Rattle.nest.specs.Allocations.{block_then};
ghost use Rattle.nest.specs.View.{made_of, nest_of, part_of};
ghost use Rattle.last_values.specs.Nested.{IsNested};
ghost use Rattle.normal_loops.specs.Normalised.{normalised, only_one, with_body, with_loops};

use crate::bodies::add_part;
use crate::loops::{is_normal, nested_loops};
use last_values::{NestedLoop, values_behind};
use nest::{Made, Nest, Part};
use nest_rewrite::with_parts;
use std::alloc::Global;
use tree::{Block, Memory, Seq};

// A block and another one behind it.
#[tactic(auto, using(crate::proofs::BlockLaws::block_laws))]
fn joined(first: Block, more: Block) -> Result<Block, Memory>
    ensures { IfOk result (λ both. block_of both ≡ block_then (block_of first) (block_of more)) }
{
    let mut stmts = first.stmts.into_vec();
    let mut rest = more.stmts.into_vec();
    stmts.append(&mut rest)?;
    Ok(Block {
        stmts: Seq::from_vec(stmts),
    })
}

fn block_then(alloc: Global, first: &Block, more: Block) -> Result<Block, Memory>
    ensures { IfOk result (λ both. block_of both ≡ block_then (block_of first.now) (block_of more)) }
{
    joined(first.copy(alloc)?, more)
}

fn copy_made(alloc: Global, made: &Seq<Made>) -> Result<Seq<Made>, Memory>
    ensures { IfOk result (λ copies. map made_of copies ≡ map made_of made.now) }
{
    let mut copies = Seq::new(alloc);
    for array in made.as_slice() {
        copies.push(array.copy(alloc)?)?;
    }
    Ok(copies)
}

// The nest with another body, and more behind what comes after it.
fn with_body(alloc: Global, nest: &Nest, more: Block, body: Part) -> Result<Nest, Memory>
    ensures { IfOk result (λ new. nest_of new ≡ with_body (nest_of nest.now) (block_of more) (part_of body)) }
{
    let made = copy_made(alloc, &nest.made)?;
    let after = block_then(alloc, &nest.after, more)?;
    with_parts(alloc, nest, body, made, after)
}

// The part where there is just one.
#[tactic(auto, using(crate::proofs::NestLaws::one_laws))]
fn only_one(mut parts: Seq<Part>) -> Option<Part>
    ensures { option_map part_of result ≡ only_one (map part_of parts) }
{
    if parts.len() > 1 {
        return None;
    }
    let Some(part) = parts.pop() else {
        return None;
    };
    Some(part)
}

#[tactic(auto, unfolding(crate::specs::Normalised::with_loops))]
fn with_loops(alloc: Global, nest: &Nest, loops: &Seq<NestedLoop>) -> Result<Option<Nest>, Memory>
    requires symbols { length nest.now.symbols ≤ 1000 }
    requires nested { All IsNested loops.now }
    ensures { IfOk result (λ new. option_map nest_of new ≡ with_loops (nest_of nest.now) loops.now) }
{
    let mut bodies = Seq::new(alloc);
    add_part(alloc, nest, loops, &[], &nest.body, &mut bodies)?;
    let Some(body) = only_one(bodies) else {
        return Ok(None);
    };
    let more = values_behind(alloc, &nest.symbols, nest.line, loops, &nest.body)?;
    Ok(Some(with_body(alloc, nest, more, body)?))
}

/// The nest with each loop from 1 by 1. The variable of a loop becomes a linear form of the counters; its last value
/// stands after the nest, or in place where it isn't known there or is wanted before. None where a loop's forms are out
/// of the limits, which those of a nest that was found aren't.
#[tactic(auto, unfolding(crate::specs::Normalised::normalised))]
pub fn normalise(alloc: Global, nest: &Nest) -> Result<Option<Nest>, Memory>
    requires { length nest.now.symbols ≤ 1000 }
    ensures { IfOk result (λ new. option_map nest_of new ≡ normalised (nest_of nest.now)) }
{
    if !is_normal(alloc, &nest.symbols, &[], &nest.body)? {
        return Ok(None);
    }
    let loops = nested_loops(alloc, &nest.symbols, &nest.body)?;
    with_loops(alloc, nest, &loops)
}
