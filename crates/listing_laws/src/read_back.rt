//! What the listing of a FORTRAN 77 program says can be read back from its lines.
//!
//! Proved (laws): from the lines that are listed of a program of FORTRAN 77 all their entries are read back, in their
//! order (`listing_of_program_is_read`), so from those of a source (`listing_of_source_is_read`), and from the text of
//! the listing (`listing_text_of_source_is_read`), whose lines list the program (`listing_text_of_source_lists`):
//! nests, loops, statements, edges with their levels, words and pairs, drops, holds, cycles and kept loops, just as
//! they are in the graphs, holds and cycles that the listing is made of. So where the listings of two sources have the
//! same lines, they have the same entries (`same_lines_list_the_same`). In the nests that are listed no private scalar
//! is left but where its element is copied to it (`listing_of_source_is_expanded`), no induction is written
//! (`listing_of_source_is_substituted`), and each loop of what is emitted for them has its causes among the edges,
//! holds and cycles (`listing_of_source_is_caused`). The numbers of statements and references are counted where a nest
//! is listed, so a listing shows them whole.
//!
//! **The dependence tests** are crates of their own, which `graph` calls. A *pair* is a pair of iterations within the
//! bounds, related as the directions say, at which both subscripts are equal for some values of the symbols.
ghost use Rattle.listing_laws.specs.read_back.Laws.{ProgramListingIsRead, SameLinesListTheSame};
ghost use Rattle.listing_laws.specs.read_back.Laws.{SourceListingIsRead, SourceListingTextIsRead};
ghost use Rattle.listing_laws.specs.read_back.Laws.{SourceListingIsCaused, SourceListingIsExpanded};
ghost use Rattle.listing_laws.specs.read_back.Laws.{SourceListingIsSubstituted, SourceListingTextLists};
ghost use Rattle.tree.specs.declared.width.Width.{Width};

/// From the lines of a program's listing all its entries are read: its nests with their loops, statements, dependences
/// and holds, and its kept loops.
pub fn listing_of_program_is_read()
    ensures { (width : Width) → ProgramListingIsRead width }
{}

/// So from the lines that are listed of a FORTRAN 77 source all their entries are read.
pub fn listing_of_source_is_read()
    ensures { (width : Width) → SourceListingIsRead width }
{}

/// They are read also from the text of the listing, which has these lines.
pub fn listing_text_of_source_is_read()
    ensures { (width : Width) → SourceListingTextIsRead width }
{}

/// The lines of that text, each of which a line feed ends, list the program that the source is.
pub fn listing_text_of_source_lists()
    ensures { (width : Width) → SourceListingTextLists width }
{}

/// In the statements that are listed of a nest no private scalar is left.
pub fn listing_of_source_is_expanded()
    ensures { (width : Width) → SourceListingIsExpanded width }
{}

/// In the statements that are listed of a nest no induction is written.
pub fn listing_of_source_is_substituted()
    ensures { (width : Width) → SourceListingIsSubstituted width }
{}

/// Each loop in which statements of a nest stand that is listed has its causes in what is listed.
pub fn listing_of_source_is_caused()
    ensures { (width : Width) → SourceListingIsCaused width }
{}

/// Where the listings of two sources have the same lines, they have the same entries.
pub fn same_lines_list_the_same()
    ensures { (width : Width) → SameLinesListTheSame width }
{}
