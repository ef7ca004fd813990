//! The names of a FORTRAN 77 program: how they stand in it, what they are, and checks of both (ANSI X3.9-1978, sections
//! 2.2, 4.1.2, 8 and 18).
//!
//! Each check gives the first statement at which its cause of refusal holds, or none where it holds nowhere.
//!
//! Proved: with a name declared or used wrongly (`wrong_declaration`), that would be REAL (`real_name`) or lacks a type
//! beside IMPLICIT NONE (`untyped_name`), with the 1,001st name (`many_names`); and what names are
//! (`KnownNames::of_text`, `KnownNames::kind` and its like).
//!
//! **A program's title calls nothing.** `PROGRAM MAX0` beside a variable MAX is accepted, since the name of the program
//! is no call. `PROGRAM MAX` with a call of MAX0 is refused 13: Fortran 90 spells the call MAX.
#![tactic(auto)]

mod constant_expressions;
pub mod constants;
mod counts;
mod declarations;
mod item_uses;
mod known_names;
mod names;
mod real_names;
mod statement_uses;
mod uses;

pub use counts::many_names;
pub use declarations::wrong_declaration;
pub use known_names::KnownNames;
pub use names::{Facts, Names};
pub use real_names::{real_name, untyped_name};
pub use statement_uses::{uses_in_text, uses_of};
pub use uses::{Role, Use, Uses};
