//! Programs whose loops are cut.
ghost use Rattle.std.specs.Prelude.{◌↔◌, ◌<◌, ◌^◌, IfOk, IsTrue};
ghost use Rattle.meaning.specs.Blocks.{statement_count_in};
ghost use Rattle.meaning.specs.Dialect.{fortran77};
ghost use Rattle.tree.specs.declared.width.Width.TheVariants.{Wide};
ghost use Rattle.meaning.specs.Profile77.{IsProgram77};
ghost use Rattle.tree.specs.View.{block_of, program_of};
ghost use Rattle.index_split.specs.Split.{IsSplitTo};

use crate::answers::answers_to;
use crate::filling::filled;
use crate::number::without_block;
use std::alloc::Global;
use tree::{Block, Memory, Program77};

// No program has more statements.
const STATEMENTS: u32 = 0x7fff_ffff;

fn is_within_limit(body: &Block) -> bool
    ensures { IsTrue result ↔ (statement_count_in (block_of body.now) < 2 ^ 31) }
{
    without_block(STATEMENTS, body).is_some()
}

/// The program with each loop cut at its points: the loop of a nest that has from 1 to 16 of them gives way to loops
/// over its pieces. Want of memory is the only error; a program of 2^31 statements is too large for memory.
pub fn split_loops(alloc: Global, program: Program77) -> Result<Program77, Memory>
    requires { IsProgram77 (fortran77 Wide) (program_of program) }
    ensures { IfOk result (λ split. IsSplitTo (program_of program) (program_of split)) }
{
    let answers = answers_to(alloc, &program)?;
    let Program77 { name, decls, body } = program;
    let body = filled(alloc, body, answers.as_slice())?;
    if !is_within_limit(&body) {
        return Err(Memory);
    }
    Ok(Program77 { name, decls, body })
}
