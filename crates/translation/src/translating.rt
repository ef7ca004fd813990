//! The translation of a program.
ghost use Rattle.std.specs.Prelude.{IfOk, map};
ghost use Rattle.f90_print.specs.Notes.{line_text};
ghost use Rattle.meaning.specs.Dialect.{fortran77};
ghost use Rattle.meaning.specs.Profile77.{IsProgram77};
ghost use Rattle.tree.specs.View.{program_of, program_of_90};
ghost use Rattle.translation.specs.Translated.{IsVectorised};
ghost use Rattle.tree.specs.declared.width.Width.TheVariants.{Wide};

use crate::limits::is_within_limits;
use crate::loop_placing::place;
use crate::made_declarations::with_declarations;
use crate::names::made_names;
use crate::nest_blocks::program_answers;
use std::alloc::Global;
use tree::{Line, Memory, Program77, Program90, Seq};

/// A program that was translated, and its listing.
#[derive(Drop)]
pub struct Translation {
    pub listing: Seq<Line>,
    pub program: Program90,
}

/// The translation of a program, with its listing: what is emitted for each nest, by the graph that is listed, stands
/// in the nest's place, and the masks and loop variables that stand in it are declared.
///
/// A translation beyond the limits of Fortran 90, which are 300 blocks in one another and 2^31 statements, is too large
/// for memory.
pub fn translate(alloc: Global, program: Program77) -> Result<Translation, Memory>
    requires { IsProgram77 (fortran77 Wide) (program_of program) }
    ensures { IfOk result (λ t.
        IsVectorised (program_of program) (map line_text t.listing) (program_of_90 t.program)) }
{
    let answers = program_answers(alloc, &program)?;
    let names = made_names(alloc, answers.blocks.as_slice())?;
    let Program77 { name, decls, body } = program;
    let body = place(alloc, body, answers.blocks.as_slice())?;
    if !is_within_limits(&body) {
        return Err(Memory);
    }
    let decls = with_declarations(alloc, decls, names.as_slice(), answers.made.as_slice())?;
    Ok(Translation {
        listing: answers.lines,
        program: Program90 { name, decls, body },
    })
}
