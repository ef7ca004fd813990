//! The statements of a FORTRAN 77 program as types (ANSI X3.9-1978, sections 7 to 12; MIL-STD-1753), each with the
//! plain statement that it stands for.
//!
//! Proved: statements as types; `Stmt77::action` is what is done under a logical IF, or the statement itself; what a
//! statement declares (`entities`, `definitions`, `is_declaration`, `is_implicit_none`).
mod declarations;
mod statements;

pub use statements::{Entity, Labelled, Stmt77};
