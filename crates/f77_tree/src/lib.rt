//! The tree that the statements of a FORTRAN 77 program form (ANSI X3.9-1978, sections 8.6, 11 and 15.10).
//!
//! Symbolic constants are replaced by their values, calls are told from elements, and blocks and loops are whole.
//!
//! Proved (`tree`): the tree that the statements form, exactly, where no symbolic constant and no bound faults or
//! leaves the range of INTEGER.
#![tactic(auto)]

mod begin;
mod exprs;
mod items;
mod programs;
mod resolver;
mod rests;
mod simple;
mod targets;

pub use programs::tree;
