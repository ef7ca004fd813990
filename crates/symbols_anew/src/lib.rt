//! Symbols of a nest, found anew.
//!
//! A symbol is an INTEGER scalar that a nest gives no value to. Behind a pass that has left out statements, as
//! if-conversion does behind a GO TO, a nest can have more of them than before. Proved (`find_symbols`): exactly the
//! nest in which these stand among the symbols in byte order, with canonical text by all of them
//! (`with_symbols_found`). A nest that has no symbol more stays as it is.
//!
//! **Symbols are what the nest gave values to before.** Variables of DO loops, which are replaced in a nest with loops
//! from 1 by 1 and get their last values behind it, are none of its symbols, though no statement gives them a value.
#![tactic(auto)]

mod found;
mod nests;
mod texts;

pub use found::new_symbols;
pub use nests::find_symbols;
