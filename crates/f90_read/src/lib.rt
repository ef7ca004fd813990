//! The program that a text of Fortran 90 is.
//!
//! **f90_read::surroundings** (`first_misplaced`): exactly the first statement that sets a DO variable of a loop or
//! list round it, has a DO variable that is none, or jumps to no label ahead in its block or one round it.
//!
//! **f90_read::f90_suits** (`first_unknown`, `first_unsuited`, `trees`): exactly the first statement with a name that
//! isn't declared or has a wrong number of subscripts; with kinds or ranks that don't suit; and the trees of statements
//! that all suit.
//!
//! Proved (`read90`): a text is read as a program exactly where the definition reads it as that (`ok`, `only_read`),
//! and refused for exactly the number and the line that the definition gives (`refused`, `only_refused`), unless memory
//! runs out. What is read of at most 2^28 bytes is a program of the profile (`program`). Expressions are looked at as
//! flat lists until their depth is known, blocks throughout.
//!
//! **What surrounds a statement is told from the statements before and behind it.** Blocks may be nested without end
//! until 40 is asked, and 37 comes before it. So labels, jumps and DO variables are looked at in the flat list, with
//! stacks; that this is what the definition says of the blocks of a tree is a law (`misplaced_is_at_place`), for which
//! the block has to exist, though the code makes it later.
//!
//! **Trees are made one statement at a time, and again for each question.** Names and kinds are asked of a statement's
//! tree, which is dropped before the next; those of the whole program are made once all suit. So no more than one
//! statement's tree is held while anything can still be refused; each tree is made three times.
#![tactic(auto)]

mod causes;
pub mod f90_suits;
mod making;
pub mod one_answer;
pub mod surroundings;
mod texts;

pub use texts::read90;
