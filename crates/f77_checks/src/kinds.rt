//! The kinds of a FORTRAN 77 program's expressions: whether operands, arguments, subscripts, conditions and sides suit
//! (ANSI X3.9-1978, sections 5.4, 6, 8.6, 10, 11 and 15.10).
//!
//! Proved: with kinds that don't suit (`unsuited_kind`).
//!
//! **Two checks say no of all but a name, each by its own match.** `reads_round` (`f77_structure::jumps`) and
//! `suits_input` (`f77_checks::kinds`) ask different things of the name, and each match names all variants, so that a
//! new one is looked at.
mod exprs;
mod hidden;
mod items;
mod kind_check;
mod operators;
mod statements;
mod unsuited;

pub use unsuited::unsuited_kind;
