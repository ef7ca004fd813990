//! Lists of PRINT and READ in Fortran 90, from their words (ISO/IEC 1539:1991, section 9.4.2).
//!
//! **f90_statement::items::parts**: the word in front of a statement's words: what follows it, or that it isn't there.
//! `is_reference` and `is_variable` tell exactly whether an expression is a name with or without a list, and one whose
//! list has no section. `Bounds::read` reads the parameters of a DO or of an implied DO list (`found`), and in one way
//! alone (`only`).
//!
//! Proved (`ItemList::read`): the words of a list of PRINT or READ are read (`found`: they are a list of the grammar,
//! of which that was made, with its depth), and each list is read, in one way alone (`only`). Implied DO lists are a
//! flat list of parts, so there is no recursion.
//!
//! **Whether a parenthesis of an item begins an implied DO list is told by a comma in it that stands in no further
//! parenthesis.** All such marks are computed once, from the last word back, so that nested lists take linear time.
mod commas;
mod depths;
mod nodes;
pub mod parts;
mod reader;

pub use nodes::{Direction, ItemList, Node};
