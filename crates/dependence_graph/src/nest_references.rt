//! The references of the statements of a nest, with what dependence tests ask of each: the loops round it, their spans,
//! and its subscripts as linear forms.
//!
//! - Proved (`references_of`): the references of a statement, exactly: its left side, then each occurrence of a
//!   variable other than that of a loop round it, in its guard, in the subscripts of its left side and in its right
//!   side. `forms_of`: the linear form of each subscript, None exactly where it has none. `occurrences_of`: each
//!   reference of a nest that can be tested once, in their order, with its place, its name, the numbers and spans of
//!   the loops round it and its forms. Want of memory is the only error.
//!
//! **What two references ask for is a function of what was kept of each.** A nest's references are collected once
//! (`Occurrence`: place, name, loops, spans, forms); the pairs that are tested are made from two of them by a function
//! of the specification, so no contract of the loops over all references speaks of the nest. The nest comes back in one
//! lemma.
mod collecting;
mod forms;
mod occurrences;

pub use collecting::references_of;
pub use forms::forms_of;
pub use occurrences::{Occurrence, occurrences_of};
