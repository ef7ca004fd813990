//! Expressions of FORTRAN 77 (ANSI X3.9-1978, section 6).
//!
//! Proved (`expression`): characters are read as a tree exactly where they spell an expression that stands for it, with
//! no literal above 2^127 - 1 and no more than 400 deep (`read`, `only`), so no text spells two trees; the two other
//! answers come only for what spells an expression (`wide`, `deep`); each tree read is one that a source can have
//! (`source`), and the text of such a tree is read back as that tree, or is too deep (`printed`).
//!
//! **Expressions are read by a machine without recursion.** A text of 2^20 bytes may open hundreds of thousands of
//! parentheses before it is known to be too deep; a stack on the heap holds them, and a tree is made only within 400
//! levels, so that it can be dropped by recursion.
//!
//! **A sign behind a logical operator needs parentheses.** A sign may stand at the front of an expression, of one in
//! parentheses, of a subscript, an argument and an operand of a relation. `L .AND. -I` and `.NOT. -I` have one
//! elsewhere and are no expressions, while `L .AND. -I .LT. J` is one. The machine keeps with each operand whether it
//! begins with such a sign, and looks at it once, at the end of the expression.
//!
//! **What follows a mark is asked in each dialect by its own functions.** The two readers have words of different
//! types: a literal is a number in one and digits in the other, and `(/`, `/)` and `::` are words of one alone.
//! Functions over a trait, with the grammar's words as its ghost members, were tried and are proved without a line of
//! proof; but each dialect would then say once more which of its words is which mark and which a name, in as many lines
//! as the functions have. FORTRAN 77 has a function for each of its five marks (`f77_expressions`), Fortran 90 one
//! function for all (`after` of `f90_statement::items::parts`).
#![tactic(auto)]

pub mod expressions;
mod fronts;
pub mod lexer;
pub mod operands;
pub mod reader;
pub mod symbols;
pub mod tokens;

pub use expressions::{Unread, expression, has_wide, whole};
pub use fronts::{
    after_close, after_colon, after_comma, after_equals, after_head, after_name, after_open,
    begins_with_name,
};
pub use lexer::{next_digit, next_letter_or_digit, strip, words};
pub use operands::{Operand, deepened};
pub use reader::read;
pub use symbols::{Symbol, squeeze};
pub use tokens::Token;
