//! Assignments and WHERE of Fortran 90 on the values of a program's names, and the variables of loops (ISO/IEC
//! 1539:1991, sections 7.5 and 8.1.4).
//!
//! Proved: a `Moment` is the values of all names and what a run counts. An assignment and a WHERE do exactly what their
//! definition says, for any trees (`assignment`, `masked_assignment`): what is evaluated in whole first, then position
//! by position, the ranges, and all stores at once; `begin_loop` and `increase` do what DO does before its turns and
//! behind each. Where there is no memory the moment is one of the run's, after which no step was counted.
mod arrays;
mod assignments;
mod causes;
mod loops;
mod moment;
mod stores;

pub use causes::{Stuck, at};
pub use moment::Moment;
