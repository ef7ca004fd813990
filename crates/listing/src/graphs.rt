//! The listing of a nest: its loops and statements, the dependences between them with the test behind each, and what
//! keeps a statement in its loops.
//!
//! - Proved (`lines`): exactly the lines of the listing of a nest: the nest, its loops from the outside in, its
//!   statements, edges and drops as one list in order, holds, cycles; a text of more than 120 characters in pieces.
//!   `kept_lines`: the lines of a loop that is kept, with its reason. Want of memory is the only error.
//!
//! **The trip that is listed is the loop's last iteration.** The loops of a listed nest go from 1 by 1, so its text is
//! the trip's.
//!
//! **In a graph a statement goes by its place, from 0, in holds and a listing by its number, from 1.** The printer of
//! the listing adds one.
mod dependences;
mod listed;
mod loops;
mod order;
mod pieces;
mod statements;
mod texts;
mod words;

pub use listed::{kept_lines, lines};
