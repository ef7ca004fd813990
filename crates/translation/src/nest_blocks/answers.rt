//! The answers to what was found in a program.
ghost use Rattle.std.specs.Prelude.{IfOk, OnOk, map};
ghost use Rattle.std.specs.Option.{option_map};
ghost use Rattle.f90_print.specs.Notes.{line_text};
ghost use Rattle.find_nests.specs.View.{found_of};
ghost use Rattle.meaning.specs.Dialect.{fortran77};
ghost use Rattle.meaning.specs.Profile77.{IsProgram77};
ghost use Rattle.tree.specs.View.{block_of, program_of};
ghost use Rattle.translation.specs.loop_placing.Placing.{blocks_of};
ghost use Rattle.translation.specs.made_declarations.Declaring.{declaration_of_name};
ghost use Rattle.translation.specs.nest_blocks.Answers.{AreAnswersFor};
ghost use Rattle.translation.specs.nest_blocks.Places.{IsPutFor};
ghost use Rattle.tree.specs.declared.width.Width.TheVariants.{Wide};

use crate::made_declarations::MadeName;
use crate::nest_blocks::loop_answers::answer_to;
use crate::nest_blocks::places::{loop_number, put};
use find_nests::{Found, find_nests};
use listing::programs::Counts;
use std::alloc::Global;
use tree::{Block, Line, Memory, Program77, Seq};

/// The lines of a program's listing, and what stands in the place of each of its loops, by the loops' numbers, of which
/// the first one is 1: for the outermost loop of a nest that is translated its block, and nothing for all others. And
/// the names that passes made for the nests.
#[derive(Drop)]
pub struct Answers {
    pub lines: Seq<Line>,
    pub blocks: Seq<Option<Block>>,
    pub made: Seq<MadeName>,
}

// Puts the block in the place of what was found, if there is one.
fn put_found(
    blocks: &mut Vec<Option<Block>>,
    found: &Found,
    block: Option<Block>,
) -> Result<(), Memory>
    ensures { OnOk result
        (IsPutFor (found_of found.now) (option_map block_of block) (blocks_of blocks.old.items)
        (blocks_of blocks.new.items)) }
{
    match (found, block) {
        (Found::Nest(nest), Some(block)) => {
            let place = (loop_number(nest) as usize).saturating_sub(1);
            put(blocks, place, block)
        }
        _ => Ok(()),
    }
}

/// The listing of a program, and the translations of its nests, each by the graph that is listed.
pub fn program_answers(alloc: Global, program: &Program77) -> Result<Answers, Memory>
    requires { IsProgram77 (fortran77 Wide) (program_of program.now) }
    ensures { IfOk result (λ a.
        AreAnswersFor (program_of program.now) (map line_text a.lines) (blocks_of a.blocks)
        (map declaration_of_name a.made)) }
{
    let mut lines = Vec::new(alloc);
    let mut blocks = Vec::new(alloc);
    let mut made = Vec::new(alloc);
    let mut counts = Counts {
        masks: 0,
        copies: 0,
    };
    for found in find_nests(alloc, program)?.as_slice() {
        let answer = answer_to(alloc, found, counts)?;
        counts = answer.counts;
        lines.append(&mut answer.lines.into_vec())?;
        made.append(&mut answer.made.into_vec())?;
        put_found(&mut blocks, found, answer.block)?;
    }
    Ok(Answers {
        lines: Seq::from_vec(lines),
        blocks: Seq::from_vec(blocks),
        made: Seq::from_vec(made),
    })
}
