//! Reductions: a loop that only gathers a sum, a greatest or a least value becomes one statement with SUM, MAXVAL or
//! MINVAL.
//!
//! Proved (`reduce`): the program is exactly that in which each such loop has its form, with the other statements as
//! they are, and without the declarations of made names that stood in these loops alone; the list has the mark and the
//! function of each, in the order of the text. Memory alone may be wanting. No law says so far that the program keeps
//! its meaning.
//!
//! **Each loop is looked at as it stands in the given program.** A loop round a form is no reduction, also where its
//! body has become one assignment.
//!
//! **x itself is told by its tree.** Two references are one where their subscripts are the same trees; `A(I+1)` and
//! `A(1+I)` are two.
//!
//! **A name is read outside its own loops, or it isn't.** Within the body of a DO, of a constructor or of an implied DO
//! list the variable has what the loop gives it, so what it holds before doesn't matter; and what the loop that is
//! replaced would have left in it nobody reads.
#![tactic(auto)]

mod finding;
mod forms;
mod gathering;
mod loops;
mod programs;
mod reading;
mod sameness;
mod scalars;
mod standing;

pub use gathering::Gathering;
pub use programs::{Reduced, reduce};
