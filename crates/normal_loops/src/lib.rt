//! Nests in which each loop goes from 1 by 1 (Allen and Kennedy, "Optimizing Compilers for Modern Architectures",
//! section 4.2, loop normalization).
//!
//! Proved (`normalise`): exactly `normalised`, the nest in which each loop goes from 1 by 1, and None exactly where the
//! forms of one of its loops are out of the limits, or where the outermost variable could not get its last value after
//! the nest. Law: each loop of a normalised nest counts from 1 by 1 and has its trip (`counts_by_one`). Asked: at most
//! 1,000 symbols. Each nest that is found has a normalised one (`pass_laws::normal_nests`). That this keeps the meaning
//! is `pass_laws::normal_meaning`'s.
#![tactic(auto)]

mod bodies;
mod laws;
mod loops;
mod nests;
mod values;

pub use laws::counts_by_one;
pub use nests::normalise;
