//! Blocks in the places of loops.
ghost use Rattle.std.specs.Prelude.{◌≡◌, ◌<◌, OnOk};
ghost use Rattle.nest.specs.View.{nest_of};
ghost use Rattle.translation.specs.loop_numbers.Numbers.{loop_number};
ghost use Rattle.translation.specs.nest_blocks.Places.{IsPut, HasRoom};

use nest::{Nest, Part};
use tree::{Block, Memory};

/// The number of the outermost loop.
#[tactic(auto, using(crate::proofs::NestBlocks::NumberLaws::number_laws))]
pub(crate) fn loop_number(nest: &Nest) -> u32
    ensures { result ≡ loop_number (nest_of nest.now) }
{
    match &nest.body {
        Part::Run(_) => 0,
        Part::Turns(turns, _) => turns.number,
        Part::Choice(..) => 0,
        Part::Label(_) => 0,
        Part::Jump(_) => 0,
    }
}

// Nothing stands in the places that are new.
fn make_room(blocks: &mut Vec<Option<Block>>, count: usize) -> Result<(), Memory>
    ensures { OnOk result (HasRoom count blocks.old.items blocks.new.items) }
{
    for _ in blocks.len()..count {
        blocks.push(None)?;
    }
    Ok(())
}

/// A block in a place, which counts from 0.
pub(crate) fn put(blocks: &mut Vec<Option<Block>>, place: usize, block: Block) -> Result<(), Memory>
    requires { place < 4294967296 }
    ensures { OnOk result (IsPut place block blocks.old.items blocks.new.items) }
{
    make_room(blocks, place + 1)?;
    blocks[place] = Some(block);
    Ok(())
}
