//! Nests with inductions substituted.
ghost use Rattle.std.specs.Prelude.{◌≡◌, ◌≤◌, IfOk, length, map};
ghost use Rattle.tree.specs.View.{block_of, statement_of};
ghost use Rattle.nest.specs.Allocations.{block_then};
ghost use Rattle.nest.specs.View.{nest_of};
ghost use Rattle.tree.specs.Plain as plain;
ghost use Rattle.inductions.specs.Ends.{induction_ending as ending_of};
ghost use Rattle.inductions.specs.Laws.{NoneIsWritten};
ghost use Rattle.inductions.specs.Nests.{endings, induction_names, inductions_substituted, with_inductions_put};
ghost use Rattle.inductions.specs.Nests.{with_inductions};
ghost use Rattle.statement_passes.specs.Shifted.{with_nest_symbols};

use crate::ends::ending;
use crate::found::{Induction, OuterLoop, inductions_under, outermost};
use crate::putting::Substitution;
use nest::Nest;
use statement_passes::{map_statements, with_symbols};
use std::alloc::Global;
use tree::{Block, Memory, Name, Seq, Stmt};

fn names_of(alloc: Global, inductions: &Seq<Induction>) -> Result<Vec<Name>, Memory>
    ensures { IfOk result (λ names. names.items ≡ induction_names inductions.now) }
{
    let mut names = Vec::new(alloc);
    for induction in inductions.as_slice() {
        names.push(induction.name)?;
    }
    Ok(names)
}

fn all_endings(
    alloc: Global,
    nest: &Nest,
    loops: &OuterLoop,
    inductions: &Seq<Induction>,
) -> Result<Vec<Stmt>, Memory>
    ensures { IfOk result (λ stmts. map statement_of stmts.items
        ≡ map (ending_of nest.now.symbols nest.now.line loops.now.trip) inductions.now) }
{
    let mut stmts = Vec::new(alloc);
    for induction in inductions.as_slice() {
        stmts.push(ending(alloc, &nest.symbols, nest.line, &loops.trip, induction)?)?;
    }
    Ok(stmts)
}

// A block with further statements behind it.
#[tactic(auto, using(crate::proofs::BlockLaws::block_laws))]
fn with_more(block: Block, more: Vec<Stmt>) -> Result<Block, Memory>
    ensures { IfOk result (λ all. block_of all
        ≡ block_then (block_of block) (plain.block (map statement_of more.items))) }
{
    let mut stmts = block.stmts.into_vec();
    let mut rest = more;
    stmts.append(&mut rest)?;
    Ok(Block {
        stmts: Seq::from_vec(stmts),
    })
}

// What comes after the nest, and the last values.
fn with_endings(
    alloc: Global,
    nest: &Nest,
    loops: &OuterLoop,
    inductions: &Seq<Induction>,
) -> Result<Block, Memory>
    ensures { IfOk result (λ after. block_of after ≡ block_then (nest_of nest.now).after
        (endings (nest_of nest.now) loops.now.trip inductions.now)) }
{
    let more = all_endings(alloc, nest, loops, inductions)?;
    with_more(nest.after.copy(alloc)?, more)
}

// The nest, in which the inductions are symbols, with their forms in its statements, and with another block after it.
fn with_body(
    alloc: Global,
    nest: &Nest,
    counter: Name,
    inductions: Seq<Induction>,
    after: Block,
) -> Result<Nest, Memory>
    ensures { IfOk result (λ new. nest_of new
        ≡ with_inductions_put counter inductions (block_of after) (nest_of nest.now)) }
{
    let symbols = Seq::from_vec(Vec::from_slice(alloc, nest.symbols.as_slice())?);
    let mut pass = Substitution {
        counter,
        symbols,
        inductions,
    };
    let mut new = map_statements(alloc, nest, &mut pass)?;
    new.after = after;
    Ok(new)
}

// With at least one induction.
fn with_some(
    alloc: Global,
    nest: &Nest,
    loops: &OuterLoop,
    inductions: Seq<Induction>,
) -> Result<Nest, Memory>
    ensures { IfOk result (λ new. nest_of new ≡ with_inductions_put loops.now.counter inductions
        (block_then (nest_of nest.now).after (endings (nest_of nest.now) loops.now.trip inductions))
        (with_nest_symbols (nest_of nest.now) (induction_names inductions))) }
{
    let names = names_of(alloc, &inductions)?;
    let after = with_endings(alloc, nest, loops, &inductions)?;
    let more = Box::new(alloc, with_symbols(alloc, nest, names.as_slice())?)?;
    with_body(alloc, &more, loops.counter, inductions, after)
}

#[tactic(auto, using(crate::proofs::BlockLaws::nest_laws))]
fn with_inductions(
    alloc: Global,
    nest: &Nest,
    loops: &OuterLoop,
    inductions: Seq<Induction>,
) -> Result<Nest, Memory>
    ensures { IfOk result (λ new. nest_of new
        ≡ with_inductions (nest_of nest.now) (loops.now.counter, loops.now.trip) inductions) }
{
    if inductions.is_empty() {
        return nest.copy(alloc);
    }
    with_some(alloc, nest, loops, inductions)
}

#[tactic(auto, unfolding(crate::specs::Nests::inductions_substituted))]
fn substituted(alloc: Global, nest: &Nest) -> Result<Nest, Memory>
    requires { length nest.now.symbols ≤ 1000 }
    ensures { IfOk result (λ new. nest_of new ≡ inductions_substituted (nest_of nest.now)) }
{
    match outermost(&nest.body) {
        Some(loops) => {
            let inductions = inductions_under(alloc, nest, &loops)?;
            with_inductions(alloc, nest, &loops, inductions)
        }
        None => nest.copy(alloc),
    }
}

/// The nest with inductions substituted: forms of the outermost loop's counter stand for the scalars that grow by a
/// constant in each of its turns, which aren't written any more, and get their last values behind the nest.
pub fn substitute_inductions(alloc: Global, nest: &Nest) -> Result<Nest, Memory>
    requires { length nest.now.symbols ≤ 1000 }
    ensures substituted { IfOk result (λ new. nest_of new ≡ inductions_substituted (nest_of nest.now)) }
    ensures unwritten { IfOk result (λ new. NoneIsWritten (nest_of nest.now) (nest_of new)) }
{
    substituted(alloc, nest)
}
