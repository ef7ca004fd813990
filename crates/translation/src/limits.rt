//! The limits of Fortran 90 on the statements of a program.
ghost use Rattle.std.specs.Prelude.{◌↔◌, IsTrue};
ghost use Rattle.tree.specs.View.{block_of};
ghost use Rattle.translation.specs.placed_profile.Limits.{IsWithinLimits};

use crate::depth::block_fits;
use crate::number::without_block;
use tree::Block;

const DEPTH: u32 = 300;

const STATEMENTS: u32 = 0x7fff_ffff;

/// Whether blocks stand at most 300 deep in one another, and there are fewer than 2^31 statements.
pub(crate) fn is_within_limits(body: &Block) -> bool
    ensures { IsTrue result ↔ IsWithinLimits (block_of body.now) }
{
    block_fits(body, DEPTH) && without_block(STATEMENTS, body).is_some()
}
