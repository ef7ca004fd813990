//! What is said of a loop, and what stands in its place.
ghost use Rattle.std.specs.Prelude.{IfOk, map};
ghost use Rattle.std.specs.Option.{option_map};
ghost use Rattle.emission.specs.nest_emission.Given.{MayBeEmitted};
ghost use Rattle.f90_print.specs.Notes.{line_text};
ghost use Rattle.find_nests.specs.Found.{InNest};
ghost use Rattle.find_nests.specs.View.{found_of};
ghost use Rattle.listing.specs.declared.programs.counts.Counts.{Counts};
ghost use Rattle.listing.specs.programs.Passed.{IsPassed};
ghost use Rattle.listing.specs.programs.Sources.{IsFoundInSource, IsNestOfSource};
ghost use Rattle.tree.specs.View.{block_of};
ghost use Rattle.translation.specs.made_declarations.Declaring.{declaration_of_name};
ghost use Rattle.nest.specs.Plain as plain;
ghost use Rattle.nest.specs.View.{nest_of};
ghost use Rattle.translation.specs.nest_blocks.LoopAnswers.{IsAnswerTo};
ghost use Rattle.tree.specs.declared.width.Width.TheVariants.{Wide};

use crate::made_declarations::{MadeName, names_made};
use emission::nest_emission::emit;
use find_nests::Found;
use listing::programs::{Counts, Passed, kept_loop, passes};
use nest::Nest;
use std::alloc::Global;
use tree::{Block, Line, Memory, Seq};

/// The lines of a loop that was found, in the listing, the block that stands in its place, if it is translated, the
/// names that passes made for it, and how many of them are made in the program with these.
#[derive(Drop)]
pub struct LoopAnswer {
    pub lines: Seq<Line>,
    pub block: Option<Block>,
    pub made: Seq<MadeName>,
    pub counts: Counts,
}

// For a nest of which passes made this one.
fn translated(alloc: Global, passed: Passed) -> Result<LoopAnswer, Memory>
    requires { MayBeEmitted (nest_of passed.nest.value) passed.tests.graph }
    ensures { IfOk result (λ a. (counts : Counts) (n : plain.Nest) → IsPassed counts n passed
        → IsAnswerTo counts (InNest n) (map line_text a.lines) (option_map block_of a.block)
        (map declaration_of_name a.made) a.counts) }
{
    let tests = passed.tests;
    let nest: &Nest = &passed.nest;
    let block = emit(alloc, nest, &tests.graph, &tests.holds)?;
    let made = names_made(alloc, nest.made.as_slice())?;
    Ok(LoopAnswer {
        lines: tests.lines,
        block: Some(block),
        made,
        counts: Counts {
            masks: nest.masks,
            copies: nest.copies,
        },
    })
}

// For a nest.
fn nest_answer(alloc: Global, found: &Nest, counts: Counts) -> Result<LoopAnswer, Memory>
    requires { IsNestOfSource Wide (nest_of found.now) }
    ensures { IfOk result (λ a.
        IsAnswerTo counts (InNest (nest_of found.now)) (map line_text a.lines) (option_map block_of a.block)
        (map declaration_of_name a.made) a.counts) }
{
    translated(alloc, passes(alloc, found, counts)?)
}

/// The answer to what was found in a program of FORTRAN 77, where so much was made before in the program: a kept loop
/// stays as it is; a nest is listed and translated by one graph.
pub fn answer_to(alloc: Global, found: &Found, counts: Counts) -> Result<LoopAnswer, Memory>
    requires { IsFoundInSource Wide (found_of found.now) }
    ensures { IfOk result (λ a.
        IsAnswerTo counts (found_of found.now) (map line_text a.lines) (option_map block_of a.block)
        (map declaration_of_name a.made) a.counts) }
{
    match found {
        Found::Nest(nest) => nest_answer(alloc, nest, counts),
        Found::Kept(line, reason) => Ok(LoopAnswer {
            lines: kept_loop(alloc, *line, *reason)?,
            block: None,
            made: Seq::new(alloc),
            counts,
        }),
    }
}
