//! Node splitting: reads of what is overwritten within a component are copied right before their statements (Allen and
//! Kennedy, "Optimizing Compilers for Modern Architectures", section 5.5).
//!
//! Proved (`split_nodes`): exactly the nest in which these reads are copied, with the names, kinds and extents of the
//! arrays of copies, or that nothing is copied (`IsSplit`); memory alone may be wanting. Which reads are copied says
//! the dependence graph: an antidependence leads from the read to another statement of its component of the outermost
//! loop, and no flow dependence to it from within the component. It isn't the whole right side, doesn't stand in a
//! guard or within another one that is copied, and an array over the loops round it has extents by the rules of scalar
//! expansion.
//!
//! **The graph says which reads are copied, and nothing more.** A copy has the value of what it is read for, whichever
//! reads are copied, so that the meaning is kept follows from no dependence.
//!
//! **Every operand of a statement that runs is evaluated.** So a copy under the statement's guard evaluates nothing
//! that the statement doesn't.
//!
//! **Copies are numbered through the program.** A nest is given the number of those before it, and has that of those
//! behind it.
#![tactic(auto)]

mod arrays;
mod choice;
mod counts;
mod nests;
mod plans;
mod reads;

pub use nests::split_nodes;
