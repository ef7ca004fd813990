//! The trees of expressions of Fortran 90, from their lists (ISO/IEC 1539:1991, sections 4.5, 6.2, 7.1 and 13).
//!
//! Proved: `suits_calls` and `variable_suits_calls` answer yes exactly where each call of an expression has arguments
//! that may stand there (`SuitsCalls`, `VariableSuitsCalls`), whatever names are declared; `Functions` are the
//! functions of Fortran 90 but for names that were hidden, the same ones where memory runs out (`hide`: `ok`, `err`);
//! `tree` makes exactly the tree of an expression that was read (`tree_of`), with literals held up to 2^127 - 1 and
//! dimensions of SPREAD up to 2^64 - 1 (`held`). Each works on the flat list with a stack of its own, without
//! recursion. As laws: the list of an expression makes its tree (`list_makes_tree`), and tells whether its calls suit
//! (`list_tells_calls`). That nothing is held otherwise where all numbers fit isn't a law yet.
//!
//! **Which calls suit is told from the list, too.** 34 is decided before 36, so before there may be a tree: the list is
//! gone through with a stack of shapes (a literal, a list of so many values, another value; a part that is a value or a
//! section). What `SPREAD` asks of its second argument and `RESHAPE` of its own is seen from the shapes.
//!
//! **A dimension of SPREAD is any literal in the grammar, and held up to 2^64 - 1.** A literal above 2^127 - 1 is held
//! as that number. `held` says what is held; where all numbers fit it changes nothing.
//!
//! **Which names are functions is kept as the declared names that hide one, each once.**
#![tactic(auto)]

mod building;
mod calls;
mod functions;
mod laws;
mod trees;

pub use functions::Functions;
pub use laws::{list_makes_tree, list_tells_calls};
pub use trees::{suits_calls, tree, variable_suits_calls};
