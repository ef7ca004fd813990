//! Nests whose IFs, labels and jumps have become masks: LOGICAL scalars `FV_MASK_n` under which statements stand (Allen
//! and Kennedy, "Optimizing Compilers for Modern Architectures", section 7.2, if-conversion).
//!
//! Proved (`convert`): exactly which statements stand in place of IFs, labels and jumps, by structure of the nest
//! (`converted_nest`): at each point of a block, under the mask that is true just where the run of the source comes
//! there. Nothing but loops and statements is left.
//!
//! **A mask may have a value from the turn before.** Each mask is assigned in a turn before it is asked in that turn,
//! and a condition is asked only under the mask under which the source asks it, so no fault is new.
//!
//! **Masks are numbered through the program** in the order of their first assignments. How many were made before is
//! handed in, and `masks` of the nest that is made says how many were made with it. A number beyond 2^32-1 is too large
//! for memory.
#![tactic(auto)]

mod bodies;
mod jumps;
mod laws;
mod masks;
mod nests;
mod points;

pub use laws::converted_is_plain;
pub use nests::convert;
pub use points::{Jumped, MaskPoint};
