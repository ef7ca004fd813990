//! The made names that stand in blocks.
ghost use Rattle.std.specs.Prelude.{◌↔◌, ◌∷◌, [], ℕ, List, IfOk, OnOk, Contains};
ghost use Rattle.std.specs.Option.{option_map};
ghost use Rattle.tree.specs.View.{block_of};
ghost use Rattle.translation.specs.loop_placing.Placing.{blocks_of};
ghost use Rattle.translation.specs.program_translation.Translated.{IsMadeIn};
ghost use Rattle.translation.specs.Names.{AreWithMade, names_in_option};

use indexmap::IndexSet;
use rewrite::names_in_block;
use std::alloc::Global;
use tree::{Block, Memory, Name, Seq};

// Adds the name, if FORTRAN 77 doesn't have it.
fn note(names: &mut IndexSet<Name>, name: Name) -> Result<(), Memory>
    ensures { OnOk result (AreWithMade names.old.keys (name ∷ []) names.new.keys) }
{
    if !name.is_source() {
        names.insert(name)?;
    }
    Ok(())
}

// Adds the made names of a list.
fn note_all(names: &mut IndexSet<Name>, all: &[Name]) -> Result<(), Memory>
    ensures { OnOk result (AreWithMade names.old.keys all.now names.new.keys) }
{
    for name in all {
        note(names, *name)?;
    }
    Ok(())
}

// Adds the made names that stand in the block, if there is one.
fn note_block(
    alloc: Global,
    names: &mut IndexSet<Name>,
    block: &Option<Block>,
) -> Result<(), Memory>
    ensures { OnOk result
        (AreWithMade names.old.keys (names_in_option (option_map block_of block.now)) names.new.keys) }
{
    let Some(block) = block else {
        return Ok(());
    };
    let all = names_in_block(alloc, block)?;
    note_all(names, all.as_slice())
}

/// The names that stand in one of the blocks and that FORTRAN 77 doesn't have, each once.
pub(crate) fn made_names(alloc: Global, blocks: &[Option<Block>]) -> Result<Seq<Name>, Memory>
    ensures { IfOk result (λ names. (x : List ℕ) → Contains names x ↔ IsMadeIn (blocks_of blocks.now) x) }
{
    let mut names = IndexSet::new(alloc);
    for block in blocks {
        note_block(alloc, &mut names, block)?;
    }
    Ok(Seq::from_vec(Vec::from_slice(alloc, names.as_slice())?))
}
