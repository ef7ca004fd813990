//! The statements of a nest with the loops round each, and which names stand in a text.
//!
//! Proved: `statements_of` gives exactly the statements of a nest with the loops round each, those under IFs too, in
//! the order of the text. `stands_in` and `stands_in_sub` say whether a name stands anywhere in an expression or a
//! subscript: in subscripts, arguments, bounds of sections, and loops of constructors too.
mod standing_names;
mod standings;

pub use standing_names::{stands_in, stands_in_sub};
pub use standings::{Standing, statements_of};
