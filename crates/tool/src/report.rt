//! How a command ended, the status that tells of it, and the line that goes to the notes.
//!
//! Proved (`status`, `note`): the status and the line of each way to end, with the names of refusals, of their words
//! and of faults.
//!
//! **A line of the notes is built on the stack and written at once.** It takes no memory, so "out of memory" can be
//! told.
//!
//! **Outcome and status are two things.** Inside, an outcome says how a command ended and carries the refusal; the
//! status and the line are functions of it, and one table in `tool/specs/report/Notes` gives both. The public clauses
//! follow from one statement by cases on the outcome (`specs/Endings`).
//!
//! **A refusal without a rule has no name.** The line of a number that no rule has ends behind the number, and a word
//! that isn't of its cause isn't written. Neither comes, and the definition needs no arbitrary name.
mod line;
mod names;
mod outcome;

pub use outcome::{Outcome, note, status};
