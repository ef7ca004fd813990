//! A reader of listings: what is listed of a nest can be read from its lines, so that nothing can be listed that isn't
//! so.
//!
//! - Proved (laws): a reader of listings, defined apart from the printer. Each entry of a listing is read from its text
//!   (`entry_is_read`), and from the lines of a listing all its entries are read, in their order, also where a text
//!   takes several lines (`listing_is_read`): so two listings with the same lines say the same loops, statements, edges
//!   with their levels, words and pairs, drops, holds and cycles. Asked: numbers of 63 bits, and names and words
//!   without blanks.
//!
//! **The listing has a reader of its own.** It is a definition, and a law says that it gives back each entry; that is
//! shorter, and says more, than that two listings differ.
ghost use Rattle.listing_laws.specs.reader.Laws.{EntryIsRead, ListingIsRead};

/// Each entry of a listing is read from its text.
pub fn entry_is_read()
    ensures { EntryIsRead }
{}

/// From the lines of a listing all its entries are read, also where a text takes several lines. So two listings with
/// the same lines have the same loops, statements, edges, drops and holds.
pub fn listing_is_read()
    ensures { ListingIsRead }
{}
