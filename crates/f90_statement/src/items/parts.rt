//! Parts of statements of Fortran 90 in their words: the word in front, variables, and the parameters of loops.
mod bounds;
mod fronts;
mod variables;

pub use bounds::Bounds;
pub use fronts::{Separator, after, after_head, after_name};
pub use variables::{is_reference, is_variable};
