//! The direction vectors in which two references meet: each candidate is tested, and answers that are alike in all
//! three directions of a loop are merged (Allen and Kennedy, "Optimizing Compilers for Modern Architectures", chapters
//! 2 and 3; Goff, Kennedy and Tseng, "Practical Dependence Testing", PLDI 1991).
//!
//! - Proved (`vectors`): each candidate vector is covered by exactly one answer (`covered`), and answers cover
//!   candidates alone (`candidates`). For all vectors that an answer covers: *never* holds of each, with a word that
//!   each may bear (`never`); a pair comes in the exact class alone, each of them has a pair, and the one given is the
//!   least of them all (`pair`); *assumed* comes outside it, and no way refutes one of them (`assumed`); the word
//!   (`kept`). The answers are merged as far as they can be from the last place to the first behind the leading `<`,
//!   and stand in order (`merged`). Want of memory is the only error.
//!
//! **One vector and all vectors are two modules.** `direction_vectors::vector_tests` knows tests and loops,
//! `direction_vectors` only the contract of one test: candidates, boxes, merging, order.
//!
//! **Boxes are tested before vectors.** A vector with `*` in some places is a box, and is tested as one. Where one
//! answer is right of all that it covers, it is the answer; where not, the box is split into those with `<`, `=` and
//! `>` in the first place that the answer may hang on (`splitting`). So what is paid goes with what is answered, and
//! not with 3^d vectors. That a box that is dropped as one bears the word that each of its vectors would bear alone is
//! not stated, since a vector may bear the word of any test that refutes it; rows show it.
//!
//! **Merging is said as a shape.** In each place behind the leading `<` all answers have `*`, or those with `<`, `=`
//! and `>` stand in this order and aren't all alike. "Alike" is the same directions further in, kind and word; the
//! pairs may differ, and the merged answer has the least.
#![tactic(auto)]

mod candidates;
mod dirs;
mod merging;
mod splitting;
pub mod vector_tests;

pub use crate::vector_tests::RefPair;
pub use candidates::vectors;
