//! Expressions of Fortran 90, from their words (ISO/IEC 1539:1991, sections 4.5, 6.2 and 7.1).
//!
//! **f90_expressions::words** (`words`): the characters of a statement are read as these words exactly where they are
//! so written, and as none exactly where they have none (`found`, `only`).
//!
//! Proved (`read`): words begin with an expression exactly where one is so written, and its list and its depth, counted
//! to 1,001, are those of that expression (`found`, `only`); what follows is anything that can't go on an expression.
//! Of what was read is told whether a literal is above 2^127 - 1 (`has_wide_literal`) and whether it is more than 1,000
//! deep (`is_deep`); `literal` gives a literal's value.
//!
//! **A word's shape doesn't depend on what follows it but for barred characters.** Each word of fixed characters has in
//! the lexer's table the characters that don't follow it (`(` no `/`, `*` no `*`, `/` neither `=` nor `)`, `<` and
//! `.LT.` no `=`): with these the order of the table doesn't matter for what is found. `.LT.=` has no words, as the
//! definition says of all spellings of Lt and Gt; it is no statement anyhow.
//!
//! **The reader of expressions makes a list before it makes a tree.** A text may nest parentheses by the million, and a
//! tree of that depth couldn't even be dropped. In the list each part stands behind the parts that it is made of, and a
//! mark stands before the parts of a list; numbers of parts aren't counted, so no count can overflow.
#![tactic(auto)]

mod literals;
mod nodes;
mod operands;
mod reader;
pub mod words;

pub use literals::literal;
pub use nodes::{Expression, Node};
pub use reader::read;
