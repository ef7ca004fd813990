//! The text of a listing.
ghost use Rattle.std.specs.Prelude.{◌≡◌, ◌++◌, IfOk, OnOk, map};
ghost use Rattle.std.specs.List.{flat_map};
ghost use Rattle.f90_grammar.specs.PrintedText.{with_line_feed};
ghost use Rattle.f90_print.specs.Notes.{line_text};
ghost use Rattle.meaning.specs.Dialect.{fortran77};
ghost use Rattle.meaning.specs.Profile77.{IsProgram77};
ghost use Rattle.tree.specs.View.{program_of};
ghost use Rattle.listing.specs.programs.Listing.{IsListingText};
ghost use Rattle.tree.specs.declared.width.Width.TheVariants.{Wide};

use crate::programs::listed::list;
use std::alloc::Global;
use tree::{Line, Memory, Program77};

fn push_line(text: &mut Vec<u8>, line: &[u8]) -> Result<(), Memory>
    ensures { OnOk result (text.new.items ≡ text.old.items ++ with_line_feed line.now) }
{
    text.extend_from_slice(line)?;
    text.push(b'\n')?;
    Ok(())
}

fn lines_text(alloc: Global, lines: &[Line]) -> Result<Vec<u8>, Memory>
    ensures { IfOk result (λ text. text.items ≡ flat_map with_line_feed (map line_text lines.now)) }
{
    let mut text = Vec::new(alloc);
    for line in lines {
        push_line(&mut text, line.text.as_slice())?;
    }
    Ok(text)
}

/// The listing of a program as one text.
pub fn listing_text(alloc: Global, program: &Program77) -> Result<Vec<u8>, Memory>
    requires { IsProgram77 (fortran77 Wide) (program_of program.now) }
    ensures { IfOk result (λ text. IsListingText (program_of program.now) text.items) }
{
    let lines = list(alloc, program)?;
    lines_text(alloc, lines.as_slice())
}
