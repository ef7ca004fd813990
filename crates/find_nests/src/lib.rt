//! The nests of a program, and the loops that are kept as they are (Allen and Kennedy, "Optimizing Compilers for Modern
//! Architectures", section 4.2).
//!
//! **find_nests::nest_parts** (`Numbering::turns`): the part of a nest that a loop is, each loop in it with its number
//! in the order of the text (`part`), and the number of the last loop up to there (`loops`), which stays where memory
//! runs out (`err`). Also a loop that is passed over (`Numbering::pass_over`).
//!
//! **find_nests::bound_limits** (`Limits::any_leaves`): exactly whether a loop, or one in it, leaves the limits of
//! linear forms once the loops round it go from 1 by 1: its lower bound, the same less its increment, the dividend of
//! its trip, or its variable's last value. Forms are composed exactly, without overflow.
//!
//! Proved (`find_nests`): exactly the nests and kept loops of a program, in text order: each loop that stands in no
//! nest is a nest, numbered from 1, or kept with the first reason that holds. As laws: a found nest is a loop of the
//! program of which no reason holds, each loop round it being kept (`found_nest`); the same of kept loops
//! (`found_kept`); where no reason is given none holds (`no_reason`), and one that is given holds (`reason_given`);
//! the second cause of BOUND by numbers alone, however forms are put together (`bound_by_numbers`).
//!
//! **A loop that is no part of a nest.** What a loop is made into leaves out statements that no nest has (READ, PRINT,
//! STOP and the forms of Fortran 90), and has the increment 0 where it isn't a suitable constant. Neither comes in a
//! nest, since a loop with one of them has a reason.
//!
//! **Numbers of loops.** They are numbers of 32 bits, and the last one would be given twice; a program has fewer than
//! 2^31 statements, so none does.
//!
//! **Bounds of loops are forms over all symbols first, then the loops.** So a form is one list, sums go place by place,
//! and no two lists differ by zeros at their ends. A loop that leaves the limits isn't looked into further, since the
//! answer stands.
#![tactic(auto)]

pub mod bound_limits;
mod laws;
pub mod nest_parts;
mod reasons;
mod search;

pub use laws::{bound_by_numbers, found_kept, found_nest, no_reason, reason_given};
pub use reasons::Reason;
pub use search::{Found, find_nests};
