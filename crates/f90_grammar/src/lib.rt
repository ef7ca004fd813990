//! What the text of a Fortran 90 program is: lines of free form, words, expressions, statements, programs.
//!
//! Proved (a law): what is written for an expression of Fortran 90, with parentheses by levels alone, stands for that
//! expression (`printed_expression_reads_back`). Its definitions say which texts are read as which program, and the
//! causes 31 to 40 for which texts are refused.
//!
//! **A text is read as a program where it has statements without a cause.** The causes 31 to 40 are facts of the text's
//! lines, of its statements and of their blocks, each with its line; which is answered is said once
//! (`reading::refusal_order`). What a name with a list stands for hangs on all declarations of the text, also those
//! behind it.
#![tactic(auto)]

mod laws;

pub use laws::printed_expression_reads_back;
