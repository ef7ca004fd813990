//! Index-set splitting: loops cut at the points of weak-zero and crossing dependences (Allen and Kennedy, "Optimizing
//! Compilers for Modern Architectures", sections 5.8 and 5.9).
//!
//! Proved (`cut_points`): exactly the points that the separable pairs of subscripts of a nest give, in rising order: of
//! a pair with the loop on one side alone the iteration in which the sides are equal and the one before it, of a pair
//! with opposite coefficients half the sum of the two iterations; those from 1 to the last turn but one. There are none
//! but in one loop with a constant trip round assignments alone (`trip_to_cut`).
//!
//! Proved (`split_loops`): the program in which each loop that stands in no nest has become what its answer says
//! (`IsSplitTo`): the loop of a nest with from 1 to 16 points gives way to loops over its pieces, with linear forms as
//! their bounds; every other nest stays, and in a kept loop the loops are looked at in turn. Want of memory is the only
//! error; a split program of 2^31 statements is too large for memory.
//!
//! **The loops of a program are walked beside the answers.** The search for nests gives one thing that was found for
//! each loop that stands in no nest, in the order of the text, so the n-th such loop has the n-th answer, and no number
//! of a loop is asked for.
//!
//! **Forms are compared as they are kept.** A form's symbols stand in rising order with coefficients other than 0, so
//! two forms have as much of each symbol exactly where the lists are equal.
#![tactic(auto)]

mod answers;
mod couples;
mod cuts;
mod filling;
mod number;
mod pieces;
mod points;
mod splitting;

pub use answers::Answer;
pub use cuts::{cut_points, trip_to_cut};
pub use pieces::{Bounds, Pieces};
pub use points::Sides;
pub use splitting::split_loops;
