//! Labels, blocks, loops and the order of statements in a FORTRAN 77 program, checked (ANSI X3.9-1978, sections 3.4,
//! 3.5 and 11).
//!
//! Each check gives the first statement at which its cause of refusal holds, or none where it holds nowhere.
//!
//! Proved: over the statements of a program, the first one with a wrong label (`wrong_label`), out of order or nested
//! wrongly (`wrong_nesting`), and with END missing or early (`wrong_end`). Before all that each loop is given a label
//! (`with_loop_labels`): which END DO closes which DO is found once, and all that is asked of loops is asked of labels.
//!
//! **What is open at a statement is handed on by value.** `Openings::pass` takes it and gives the next; so where memory
//! runs out no half of it is left with the caller. Calls that only this crate makes are its own.
#![tactic(auto)]

mod forms;
pub mod jumps;
mod label_places;
mod labels;
mod labels_check;
mod loop_labels;
mod nesting;
mod openings;
mod order;

pub use forms::Form;
pub use label_places::LabelPlaces;
pub use labels_check::wrong_label;
pub use loop_labels::with_loop_labels;
pub use nesting::{here_if, label_ends, place_under, wrong_nesting};
pub use openings::{Openings, is_behind};
pub use order::wrong_end;
