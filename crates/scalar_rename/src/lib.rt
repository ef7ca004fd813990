//! Scalar renaming: the values that unguarded assignments give a scalar get names of their own, so that no assignment
//! has to wait for the readers of an earlier value (Allen and Kennedy, "Optimizing Compilers for Modern Architectures",
//! section 5.4).
//!
//! Proved (`rename`): exactly the nest in which each range of a renamed scalar's values, but the last one, has a name
//! of its own (`renamed`), with these names as scalars of its kind among what was made; memory alone may be wanting. A
//! nest without such scalars is given back as it is.
//!
//! **A range begins at an unguarded assignment.** Its left side has the name of the range that begins, its right side
//! reads the one before; a guarded assignment keeps the name, since the old value may stay. **The last range has the
//! scalar's own name**, so that the scalar holds behind the loop what it held, and no value is copied. So a body may be
//! gone through again, and other loops may stand in it.
//!
//! **A range whose name would be too long** is answered as memory that is wanting; with five digits none is.
#![tactic(auto)]

mod names;
mod nests;
mod occurrences;
mod ranges;

pub use names::NewName;
pub use nests::rename;
pub use ranges::{Web, webs_of};
