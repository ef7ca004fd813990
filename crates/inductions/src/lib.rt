//! Induction variables: scalars that grow by a constant in each turn of the outermost loop of a nest.
//!
//! Proved (`substitute_inductions`): exactly the nest with inductions substituted (`inductions_substituted`). A scalar
//! is an induction where its only write in the nest is an unguarded `x = x + c`, `x = c + x` or `x = x - c` in the
//! outermost loop's own body, and its forms are within the limits (`inductions_of`). Its reads become linear forms of
//! the loop's counter, its write goes, it becomes a symbol, and its last value stands behind the nest, in an IF where
//! the loop may have no turn. As a law: where loops and statements stand in a nest alone, no induction of it is written
//! any more (`no_induction_is_written`); and the forms keep the profile of a program, where they raise a depth by 5 at
//! most, however many names there are (`forms_profile`). The statement that writes an induction lets it grow by its
//! step (`the_write_grows`), and the loops with the forms, without these statements, go on beside those of the nest
//! (`substituted_loops_lead`).
//!
//! **One rule for all names at once.** A form has its own name and the counter alone, so that replacing all names at
//! once is the same as one after another; but no depth rises once for each name.
#![tactic(auto)]

mod ends;
mod found;
mod growing;
mod laws;
mod nests;
mod putting;

pub use found::{Induction, inductions_of};
pub use laws::{forms_profile, no_induction_is_written, substituted_loops_lead, the_write_grows};
pub use nests::substitute_inductions;
