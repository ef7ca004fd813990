//! What is wrong in the blocks of a text: DO variables and jumps (ISO/IEC 1539:1991, sections 8.1.4, 8.2 and 9.4.2).
mod jumping;
mod listing;
mod looping;
mod misplaced;

pub use misplaced::first_misplaced;
