//! A FORTRAN 77 program, from its source or from the cards of it.
//!
//! Proved (`read77`), at each width of INTEGER: a source of fixed form is read as a program exactly where its cards are
//! statements in which
//! nothing is wrong (`ok`, `only_read`), that program is one of the profile (`program`), and it is refused exactly
//! where, and for the number, line and word for which, the definition refuses it (`refused`, `only_refused`), unless
//! memory runs out; a declaration of fixed bounds that it has made has at least one (`dimensions`). `build` says the
//! same of any cards, of the refusals from 10 on where their lines rise, and of the profile where they are those of a
//! source. As laws: what is read of a source is a program of the profile (`read_source_is_program`); a source has one
//! refusal at most (`one_refusal`).
//!
//! **That a declared array has a dimension is said of what is read, not by its type.** In the plain tree a scalar is an
//! array without bounds, so no definition there can tell `Fixed` without bounds from `Scalar`; `read77` has a clause on
//! the declarations themselves (`HaveDimensions`).
#![tactic(auto)]

mod cards;
mod laws;
pub mod one_answer;
mod programs;
mod refusals;
mod sources;

pub use laws::{one_refusal, read_source_is_program};
pub use programs::build;
pub use sources::read77;
