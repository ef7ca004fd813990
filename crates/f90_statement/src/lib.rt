//! Statements of Fortran 90, from their words (ISO/IEC 1539:1991, sections 5, 6.3, 7.5, 8 and 9).
//!
//! Proved (`Statement::read`): words are read as a statement exactly where they are written as one (`found`, `only`),
//! and in one way alone: a keyword's statement is looked for first, and an assignment where there is none, since a
//! variable may have a keyword's name. A logical IF holds its statement without recursion. Of a statement that was read
//! is told exactly whether a literal of it is above 2^127 - 1 (`has_wide_literal`), whether an expression of it is more
//! than 1,000 deep (`has_deep_expression`), and whether a mark before it is its own (`takes_mark`).
#![tactic(auto)]

mod actions;
mod contents;
mod declarations;
mod fronts;
pub mod items;
mod nodes;
mod parts;
mod statements;

pub use nodes::{Action, Bound, Dimension, Entity, Statement};
