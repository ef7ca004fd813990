//! What decks and programs mean: stores, values and runs, in FORTRAN 77 and in Fortran 90; which trees are programs of
//! the two profiles.
//!
//! Proved (laws of values and runs, for the programs of both dialects): cells of names, numbers in texts, what the
//! value of an expression and of an array expression depends on (`value_from_cells`), agreement of stores, ranges,
//! exchange of assignments, ends of runs, cut runs, programs that differ in their lines alone (`relined_run`), and what
//! a wider range of INTEGER leaves as it is (`wider_integers`).
//!
//! **Arrays are known, or still to be computed.** Operators are left to each position, so that an operation under a
//! mask that is false there is never performed; what is evaluated in whole is a list. A name's elements are put in a
//! list when it is evaluated, so two stores that agree on the cells read give equal arrays.
//!
//! **Kinds belong to agreement.** ALLOCATE takes the kind of its new elements from what the store holds there. So two
//! stores agree only where what is no cell now has one kind in both.
#![tactic(auto)]

pub mod decks;
pub mod element_counts;
mod laws;

pub use laws::{
    cells_of_a_name, cut_run, exchanged_assignments, kept_agreement, numbers_in_range,
    numbers_in_texts, relined_run, run_ends, value_from_cells, wider_integers,
};
use tree::Fault;

/// How a run ended: at END or STOP; by a fault, at a line; at the limit of steps; or because its output couldn't be
/// written.
#[derive(Clone, Copy, Debug, PartialEq, Eq)]
pub enum End {
    Done,
    Fault(Fault, u32),
    StepLimit,
    WriteFault,
}
