//! Free form (ISO/IEC 1539:1991, section 3.3.1): from the lines of a text to its statements.
//!
//! Proved (`statements`): the statements of a text in free form are those of its definition, in lines, characters and
//! marks, and it is refused, for a byte, a long line or a missing end, exactly where, and for the cause and the line
//! for which, the definition of these causes answers one (`ok`, `unrefused`, `refused`, `only_read`, `only_refused`);
//! the text has fewer than 2^32 bytes, and there is no other limit.
//!
//! **Lines are gone over once for each cause.** The least number among the causes of lines is answered, wherever it
//! stands, so each cause has its own pass, in constant memory. One pass that keeps three findings would be faster by a
//! constant and its invariant three times as long.
//!
//! **A statement keeps all its marks.** The reader needs the last one alone; the list is what the definition has, so
//! one equation says all, and few statements have more than one.
#![tactic(auto)]

mod lines;
mod marks;
mod parts;
mod readings;
mod refusals;
mod texts;

pub use readings::Statement;
pub use texts::statements;
