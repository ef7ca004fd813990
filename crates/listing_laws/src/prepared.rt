//! What is listed of any prepared nest, whichever pass made it.
//!
//! Proved (laws): by a graph of a prepared nest its lines may stand as notes before a printed program
//! (`prepared_listing_lines_are_notes`), and from them its entries are read, where its statements and references have
//! numbers that a listing shows whole (`prepared_listing_is_read`).
ghost use Rattle.listing_laws.specs.prepared.Laws.{PreparedNestIsPrintable, PreparedNestIsTidy};

/// Each line that is listed of a prepared nest, by a graph of it, may stand as a note before a printed program.
pub fn prepared_listing_lines_are_notes()
    ensures { PreparedNestIsPrintable }
{}

/// From these lines its entries are read, where its statements and references aren't too many.
pub fn prepared_listing_is_read()
    ensures { PreparedNestIsTidy }
{}
