//! The lines of a program's listing are notes that may stand before a printed program.
//!
//! Proved (law): each line of a listing of a program of FORTRAN 77 may stand as a note before a printed program: it is
//! printable, begins with `!G `, and is no longer than a line may be (`listing_lines_are_notes`).
ghost use Rattle.listing_laws.specs.notes.Laws.{ListingLinesAreNotes};
ghost use Rattle.tree.specs.declared.width.Width.{Width};

/// Each line of the listing of a program of FORTRAN 77 is a comment line of printable characters, no mark, and no
/// longer than a line of free form may be (ISO/IEC 1539:1991, section 3.3.1): it may stand as a note before a printed
/// program.
pub fn listing_lines_are_notes()
    ensures { (width : Width) → ListingLinesAreNotes width }
{}
