//! Prints programs as Fortran 90 (ISO/IEC 1539:1991).
//!
//! Proved (`print90`, `print_expr`, `print_assign`): the bytes are exactly the text that the definitions have of any
//! program with its notes, of any expression, of any assignment with its guard; want of memory alone is free.
//!
//! **What is printed is a list of statements, and their text.** A program is printed as statements, each in its form as
//! the grammar has it, and each form has one text. So reading back goes form by form, and the printer's rule on
//! parentheses is that of the grammar's levels.
//!
//! **No rule on signs is printed.** A sign directly behind a logical operator is no expression, but an operand of a
//! logical operator is LOGICAL and so never begins with a sign that isn't in a relation: this follows from the kinds,
//! and levels alone decide on parentheses.
//!
//! **The printer is total.** `print90` gives the definition's text for every tree, also for one that no text has; that
//! the text is read back is a law of programs of the profile.
#![tactic(auto)]

mod declarations;
mod expressions;
mod forms;
mod items;
mod lines;
mod printer;
mod statements;
mod texts;

pub use printer::{print_assign, print_expr, print90};
