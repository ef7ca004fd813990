//! Nests.
ghost use Rattle.std.specs.Prelude.{◌≡◌, ℕ, ℤ, List, IfOk, map};
ghost use Rattle.rewrite.specs.Following.{RunFollows, sequential};
ghost use Rattle.rewrite.specs.Suits.{SuitsBlock};
ghost use Rattle.rewrite.specs.Profile.{MakesProfile};
ghost use Rattle.nest.specs.Blocks.{block_of_nest};
ghost use Rattle.tree.specs.View.{block_of};
ghost use Rattle.nest.specs.View.{made_of, nest_of, part_of};
ghost use Rattle.nest_rewrite.specs.Rewritten.{rewritten_array, rewritten_nest, KeepsIncrements};
ghost use Rattle.nest_rewrite.specs.Assembled.{with_parts};

use crate::expressions::rewrite_each;
use crate::parts::rewrite_part;
use nest::{Made, Nest, Part};
use rewrite::{Rule, rewrite};
use std::alloc::Global;
use tree::{Block, Memory, Name, Seq, both, copy_decls};

fn rewrite_array<R: Rule>(alloc: Global, array: &Made, rule: &mut R) -> Result<Made, Memory>
    ensures made { IfOk result (λ new. made_of new ≡ rewritten_array (R.making rule.old) (made_of array.now)) }
    ensures same { R.making rule.new ≡ R.making rule.old }
{
    let extents = rewrite_each(alloc, &array.extents, rule)?;
    Ok(Made {
        name: array.name,
        kind: array.kind,
        extents,
    })
}

fn rewrite_arrays<R: Rule>(
    alloc: Global,
    arrays: &Seq<Made>,
    rule: &mut R,
) -> Result<Seq<Made>, Memory>
    ensures made { IfOk result (λ new. map made_of new
        ≡ map (rewritten_array (R.making rule.old)) (map made_of arrays.now)) }
    ensures same { R.making rule.new ≡ R.making rule.old }
{
    let mut made = Seq::new(alloc);
    for array in arrays.as_slice() {
        made.push(rewrite_array(alloc, array, rule)?)?;
    }
    Ok(made)
}

fn copy_names(alloc: Global, names: &Seq<Name>) -> Result<Seq<Name>, Memory>
    ensures { IfOk result (λ copies. copies ≡ names.now) }
{
    Ok(Seq::from_vec(Vec::from_slice(alloc, names.as_slice())?))
}

/// The nest with another body, other made arrays, and another block after it.
#[tactic(auto, unfolding(crate::specs::Assembled::with_parts))]
pub fn with_parts(
    alloc: Global,
    nest: &Nest,
    body: Part,
    made: Seq<Made>,
    after: Block,
) -> Result<Nest, Memory>
    ensures { IfOk result (λ new. nest_of new
        ≡ with_parts (nest_of nest.now) (part_of body) (map made_of made) (block_of after)) }
{
    let (decls, symbols) = both(
        copy_decls(&nest.decls, alloc),
        copy_names(alloc, &nest.symbols),
    )?;
    Ok(Nest {
        number: nest.number,
        line: nest.line,
        title: nest.title,
        body,
        decls,
        symbols,
        made,
        after,
        masks: nest.masks,
        copies: nest.copies,
    })
}

fn rewrite_parts_of<R: Rule>(alloc: Global, nest: &Nest, rule: &mut R) -> Result<Nest, Memory>
    ensures made { IfOk result (λ new. nest_of new ≡ rewritten_nest (R.making rule.old) (nest_of nest.now)) }
    ensures same { R.making rule.new ≡ R.making rule.old }
{
    let body = rewrite_part(alloc, &nest.body, rule)?;
    let made = rewrite_arrays(alloc, &nest.made, rule)?;
    let after = rewrite(alloc, &nest.after, rule)?;
    with_parts(alloc, nest, body, made, after)
}

/// What the rule makes of a nest: of its loops, its made arrays and what comes after. Where the rule suits each node,
/// and leaves the increments of loops as they are, the run of what was made follows the run of the nest, between the
/// allocation and the deallocation of its made arrays: if that meets no fault, both end the same way, with stores that
/// are alike.
///
/// Where the rule keeps kinds, and the names that are declared, a program that has the nest as its statements becomes a
/// program; no expression has become deeper than the rule may raise a depth.
pub fn rewrite_nest<R: Rule>(alloc: Global, nest: Nest, rule: &mut R) -> Result<Nest, Memory>
    ensures made { IfOk result (λ new. nest_of new ≡ rewritten_nest (R.making rule.old) (nest_of nest)) }
    ensures same { R.making rule.new ≡ R.making rule.old }
    ensures follows { IfOk result (λ new. (bits : ℕ) (turns : List ℤ)
        → KeepsIncrements (R.making rule.old) (nest_of nest).body
        → SuitsBlock (R.making rule.old) (R.suits rule.old) (block_of_nest (nest_of nest))
        → RunFollows (sequential bits) (R.like rule.old bits turns) (block_of_nest (nest_of nest))
        (block_of_nest (nest_of new))) }
    ensures profile { IfOk result (λ new. KeepsIncrements (R.making rule.old) (nest_of nest).body
        → MakesProfile (R.making rule.old) (block_of_nest (nest_of nest)) (block_of_nest (nest_of new))) }
{
    rewrite_parts_of(alloc, &nest, rule)
}
