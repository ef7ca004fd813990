//! What is read of a text in FORTRAN 77 is a program of the profile, and a refusal has the line at which its cause
//! holds first.
//!
//! Proved (laws): what is read of statements such as cards give is a program of the profile (`read_text_is_program`);
//! the answered refusal is at the first statement at which its cause holds, where lines rise (`refusal_is_first`); the
//! cards of a source give such statements (`read_statement_is_source`, `read_source_has_cards`,
//! `read_cards_are_source`).
//!
//! **Fewer than 2^31 statements is a premise of the law on programs.** A statement becomes at most three of the tree. A
//! source of 2^20 bytes has far fewer; the law says so by the lines that rise.
#![tactic(auto)]

pub mod kinds;
mod laws;
mod source_laws;
pub mod trees;

pub use laws::{
    read_expression_is_source, read_text_is_program, refusal_is_first, rising_lines_are_few,
};
pub use source_laws::{read_cards_are_source, read_source_has_cards, read_statement_is_source};
