//! From the characters of a statement of Fortran 90 to its words (ISO/IEC 1539:1991, sections 3.2 and 3.3.1).
mod lexer;
mod symbols;
mod tokens;

pub use lexer::words;
pub use tokens::Token;
