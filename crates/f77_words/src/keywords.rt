//! How a statement of FORTRAN 77 is recognised (ANSI X3.9-1978, sections 3 and 7 to 12).
//!
//! A statement that begins with IF( whose matching parenthesis is followed by a letter is a block IF or a logical IF.
//! Any other with an
//! equals sign outside parentheses is a DO, where a comma outside parentheses comes after the sign, or else an
//! assignment. What is left begins with its keyword.
//!
//! Proved: how a statement is recognised (`cut_at_close`, `conditional`, `Outside::of`, `label`) and which of the 33
//! words that are left out it has (`word_left_out`: `found`, `only`), so that no text has two.
//!
//! **`GO TO (10,20),,I` is a computed GO TO.** What stands behind the list of labels and one comma only has to be
//! something; whether it is an expression is not asked of a form that is left out anyway.
mod conditions;
mod forms_left_out;
mod fronts;
mod outside;
mod parentheses;
mod words_left_out;

pub use conditions::conditional;
pub use forms_left_out::behind_comma;
pub use fronts::label;
pub use outside::Outside;
pub use parentheses::cut_at_close;
pub use words_left_out::{is_then, word_left_out};
