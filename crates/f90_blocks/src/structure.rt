//! The order of the statements of a Fortran 90 program, their labels and their blocks, checked (ISO/IEC 1539:1991,
//! sections 2.3.1, 3.2.4 and 8.1).
//!
//! Each check gives the first place at which its cause of refusal holds, by the number of statements before it, or none
//! where it holds nowhere.
//!
//! Proved (`first_disordered`, `first_wrong_label`, `first_deep_block`): exactly the first statement that is out of
//! order, closes a block wrongly or opens one that stays open; that bears a label that is 0 or stands before; that
//! opens a block in 300 others. No recursion, and one walk for each.
mod blocks;
mod disorder;
mod ends;
mod labels;
mod names;
mod order;

pub use blocks::first_deep_block;
pub use disorder::first_disordered;
pub use labels::first_wrong_label;
