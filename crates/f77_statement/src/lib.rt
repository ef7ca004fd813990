//! One statement of FORTRAN 77 (ANSI X3.9-1978, sections 7 to 12).
//!
//! Proved (`parse`): a card is read as a statement exactly where its characters have the statement's form, with no
//! literal above 2^127 - 1 and nothing more than 400 deep (`read`, `only_read`), and it is refused with 6 to 9, at its
//! line and with its word, exactly as the definition has it (`refused`, `only_refused`).
#![tactic(auto)]

mod actions;
mod assignments;
mod cards;
mod declarations;
mod formed;
mod forms;
mod keywords;
mod statements;

pub use cards::parse;
