//! Fixed form (ANSI X3.9-1978, section 3): from the lines of a source to its statements.
//!
//! Proved (`statements`): the statements of a source of fixed form are those of its definition, and it is refused
//! exactly where, and for the cause and the line for which, the definition refuses it (`ok`, `refused`, `only_read`,
//! `only_refused`).
#![tactic(auto)]

mod cards;
mod refusals;
mod source;

pub use cards::{Card, statements};
