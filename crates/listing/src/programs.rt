//! The listing of a program: which loops are kept and why, and the dependences and holds of each nest.
//!
//! - Proved (`list`, `listing_text`): what is given are the lines, or the text, of a listing of the program
//!   (`IsListing`). For each loop that stands in no nest, in the order of the text: where a reason holds of it, one
//!   line with its line and the first reason that holds; where none does it is a nest, and is listed by its number with
//!   its loops, statements, some graph of it (`IsGraphOf`), its holds, and the cycles of what is emitted by these
//!   (`AreCyclesOf`), once its loops go from 1 by 1, masks stand for its IFs, labels and jumps, INTEGER scalars that
//!   get no value any more are symbols, forms of the counter stand for its inductions, each range of a scalar's values
//!   has a name of its own, arrays stand for its private scalars, reads are copied before they are overwritten as a
//!   graph of it asks for, and its loops have moved as one of the nest with copies does; where nothing is copied, the
//!   two are one graph, and where no loop moves, the last one is listed. Masks and copies are numbered through the
//!   program. Asked: that the program is one of FORTRAN 77. Want of memory is the only error. What a graph says beyond
//!   that, as which groups the Delta test drops, is shown by tests.
//! - A law (`listed_nests_are_testable`): a nest that is listed with its graph is what the tests ask for (`IsReady`).
//! - A law (`loops_are_listed`): a nest whose loops can be listed (`IsListedFrom` of normal_loops), and for which masks
//!   can be made, is listed; so the chain of passes that the listing speaks of says no less.
//! - A law (`listed_nests_are_expanded`): in no nest of a listing a scalar is left that was private before
//!   expansion, but in the statement that copies its element to it.
//! - A law (`listed_nests_are_substituted`): no nest of a listing writes an induction of the nest before substitution.
//! - A law (`listed_nests_have_causes`): each statement that stands in a loop of what is emitted for a listed nest has
//!   a cycle there, the least of its shortest closed walks of dependences at work, or is by itself there and held; and
//!   no other cycle is listed.
//!
//! **`passes` alone calls passes.** `graph` prints what it gives, and `vectorise` prints and emits it; so no nest is
//! listed and another one translated.
//!
//! **The number in the line NEST is that of the nest as it was found.** Each nest that is found is listed: it has a
//! form with loops from 1 by 1, masks for its IFs and jumps, all its symbols, forms for its inductions, names for
//! ranges of its scalars' values, and arrays for its private scalars. Reads are copied and loops move where its
//! dependences ask for it; a graph is made anew only then.
//!
//! **More statements of a nest, or references of one statement, than 32 bits count are answered as want of memory.**
mod counts;
mod laws;
mod listed;
mod lists;
mod nests;
mod texts;
mod words;

pub use counts::Counts;
pub use laws::{
    listed_nests_are_expanded, listed_nests_are_substituted, listed_nests_are_testable,
    listed_nests_have_causes, loops_are_listed,
};
pub use listed::{kept_loop, list};
pub use nests::{Passed, Tests, passes};
pub use texts::listing_text;
