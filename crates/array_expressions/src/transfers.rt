//! READ and PRINT of Fortran 90, with arrays in their lists (ISO/IEC 1539:1991, section 9.4).
//!
//! Proved (`read_statement`, `print_statement`): READ and PRINT with whole arrays, elements, sections and implied DO
//! lists, exactly; where a write failed, what was given is a front of it.
mod printing;
mod reading;
mod unfinished;

pub use printing::print_statement;
pub use reading::read_statement;
pub use unfinished::Unfinished;
