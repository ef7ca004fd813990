//! The block that statements of Fortran 90 form (ISO/IEC 1539:1991, section 8.1).
//!
//! **f90_blocks::f90_statement_trees** (`statement_tree`): an executable statement with the trees of its expressions,
//! literals held up to 2^127 - 1 and dimensions of SPREAD up to 2^64 - 1; where kinds and ranks suit, nothing is cut
//! (`kinds_stay`).
//!
//! Proved (`block`): the block that statements in order form, with the labels that a GO TO names.
//!
//! **A tree that suits is held as it is.** A dimension of SPREAD beyond 2^64 - 1 is cut in the tree; it is refused 39
//! either way, since no rank is so great, so what is asked of the cut tree is what is asked of the whole one
//! (`kinds_stay`).
//!
//! **The block is made from the last statement back.** Behind a closing statement what it closes is whole, so each of
//! the grammar's rules is one step; from the front each block would have two halves.
#![tactic(auto)]

mod building;
mod nodes;
mod open;
pub mod places;
pub mod statement_trees;
pub mod structure;
mod targets;

pub use building::block;
pub use nodes::Treed;
