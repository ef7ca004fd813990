//! The places of a text's statements: the first at which something holds, and their lines.
//!
//! **f90_blocks::places::forms** (`forms`, `places`): each statement of a text is read exactly where its characters
//! have words and these a form, and is none elsewhere, also behind one that has none; where all have forms, these have
//! exactly the lines and marks that the definition gives them (`HaveForms`), and no list is given exactly where one has
//! none.
//!
//! Proved (`first_wide`, `first_deep`): of the statements of a text the first that has a literal above 2^127 - 1, and
//! the first with an expression more than 1,000 deep, as its place: how many statements stand before it (`FindsFirst`:
//! it holds there, and at no place before; or at none). So all checks below answer. As laws: a statement begins in a
//! later line than one before it (`statements_rise`), so the first place has the first line.
ghost use Rattle.f90_blocks.specs.places.Rising.{StatementsRise, PlacesRise};

mod choice;
mod first;
pub mod forms;
mod lines;

pub use choice::earlier;
pub use first::{first_deep, first_wide};
pub use lines::line_at;

/// A statement of a text begins in a later line than one that stands before it (ISO/IEC 1539:1991, section 3.3.1), so
/// the first statement at which something holds has the first of the lines.
pub fn statements_rise()
    ensures free { StatementsRise }
    ensures placed { PlacesRise }
{}
