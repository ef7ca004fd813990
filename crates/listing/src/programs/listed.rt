//! The lines of a program.
ghost use Rattle.std.specs.Prelude.{◌≡◌, IfOk, map};
ghost use Rattle.f90_print.specs.Notes.{line_text};
ghost use Rattle.find_nests.specs.View.{found_of};
ghost use Rattle.meaning.specs.Dialect.{fortran77};
ghost use Rattle.meaning.specs.Profile77.{IsProgram77};
ghost use Rattle.tree.specs.View.{program_of};
ghost use Rattle.listing.specs.graphs.Listing.{lines_of_entries};
ghost use Rattle.listing.specs.programs.Listing.{IsListing, kept_loop_entry};
ghost use Rattle.listing.specs.programs.Listed.{IsListedAs};
ghost use Rattle.listing.specs.programs.Sources.{IsFoundInSource};
ghost use Rattle.tree.specs.declared.width.Width.TheVariants.{Wide};

use crate::graphs::kept_lines;
use crate::programs::counts::Counts;
use crate::programs::lists::add;
use crate::programs::nests::{Listed, nest_lines};
use crate::programs::words::reason_word;
use find_nests::{Found, Reason, find_nests};
use std::alloc::Global;
use tree::{Line, Memory, Program77, Seq};

/// The line of a kept loop.
pub fn kept_loop(alloc: Global, line: u32, reason: Reason) -> Result<Seq<Line>, Memory>
    ensures { IfOk result (λ all. map line_text all ≡ lines_of_entries (kept_loop_entry line reason)) }
{
    kept_lines(alloc, line, reason_word(reason))
}

fn lines_of(alloc: Global, found: &Found, counts: Counts) -> Result<Listed, Memory>
    requires { IsFoundInSource Wide (found_of found.now) }
    ensures { IfOk result (IsListedAs counts (found_of found.now)) }
{
    match found {
        Found::Nest(nest) => nest_lines(alloc, nest, counts),
        Found::Kept(line, reason) => Ok(Listed {
            lines: kept_loop(alloc, *line, *reason)?,
            counts,
        }),
    }
}

/// The listing of a program: in the order of the text each kept loop with its reason, and each nest with its loops, its
/// statements, the dependences between them, each with the test behind it, and what keeps a statement from array form.
/// Of a nest its IFs, labels and jumps are listed as masks, and reads of what is overwritten as copies, both numbered
/// through the program.
pub fn list(alloc: Global, program: &Program77) -> Result<Seq<Line>, Memory>
    requires { IsProgram77 (fortran77 Wide) (program_of program.now) }
    ensures { IfOk result (λ all. IsListing (program_of program.now) (map line_text all)) }
{
    let mut all = Vec::new(alloc);
    let mut counts = Counts {
        masks: 0,
        copies: 0,
    };
    for found in find_nests(alloc, program)?.as_slice() {
        let listed = lines_of(alloc, found, counts)?;
        counts = listed.counts;
        add(&mut all, listed.lines)?;
    }
    Ok(Seq::from_vec(all))
}
