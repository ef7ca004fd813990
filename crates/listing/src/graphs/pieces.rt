//! The lines of a text: comments of Fortran 90 (ISO/IEC 1539:1991, section 3.3.1.1), none longer than a line may be.
ghost use Rattle.std.specs.Prelude.{◌≡◌, ◌++◌, IfOk, OnOk, map};
ghost use Rattle.f90_print.specs.Notes.{line_text};
ghost use Rattle.listing.specs.graphs.Listing.{listing_lines_of};

use crate::graphs::texts::push;
use std::alloc::Global;
use tree::{Line, Memory, Seq};

// How many characters of a text a line has.
const PIECE_LENGTH: usize = 120;

#[derive(Drop)]
pub(crate) struct ListingLines {
    pub(crate) list: Seq<Line>,
}

// One line: what begins it, and a piece of a text.
fn line_of(alloc: Global, first: &[u8], piece: &[u8]) -> Result<Line, Memory>
    ensures { IfOk result (λ line. line_text line ≡ first.now ++ piece.now) }
{
    let mut text = Vec::from_slice(alloc, first)?;
    push(&mut text, piece)?;
    Ok(Line {
        text: Seq::from_vec(text),
    })
}

impl ListingLines {
    // A text is added in one line, or in pieces.
    pub(crate) fn add(&mut self, alloc: Global, text: &[u8]) -> Result<(), Memory>
        ensures { OnOk result (map line_text self.new.list ≡ map line_text self.old.list ++ listing_lines_of text.now) }
    {
        let mut first = b"!G ".as_slice();
        let mut rest = text;
        'pieces: while rest.len() > PIECE_LENGTH {
            let (piece, others) = rest.split_at(PIECE_LENGTH);
            self.list.push(line_of(alloc, first, piece)?)?;
            first = b"!G + ";
            rest = others;
        }
        self.list.push(line_of(alloc, first, rest)?)
    }
}
