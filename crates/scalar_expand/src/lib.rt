//! Scalar expansion: a scalar that each turn of a loop gives a value before it reads it becomes an array with an
//! element for each iteration (Allen and Kennedy, "Optimizing Compilers for Modern Architectures", section 5.3).
//!
//! Proved (`expand`): exactly the nest in which each private scalar has become an array, with the names, kinds and
//! extents of these arrays, and what gives the scalars of the program their last values; memory alone may be wanting.
//! A nest without private scalars is given back as it is. Which scalars are private, and what their arrays are, says
//! `private_scalars`.
//!
//! Laws: the loops of an expanded nest go on beside those of the nest, with all private scalars at once
//! (`expanded_nest_goes_on`, and of one loop `expanded_loop_goes_on`), where the arrays have elements for all
//! iterations; arrays of these extents have (`extents_cover`), triangles included. Then the last values meet no fault,
//! and each scalar of the program holds what it holds behind the nest (`last_values_go_on`). Of the premises of a run
//! (`IsExpandable`) those on loops and statements are what a prepared nest has.
//!
//! **An extent is the greatest trip over all iterations**, so a triangle has a square: the array has one bound for each
//! loop, and no bound may depend on a counter. **Arrays are allocated whether or not a loop is entered**, so no extent
//! may overflow, whatever the symbols hold: the forms are held against the limits with each coefficient by its size.
//! **A last value stands behind the nest** where the last iteration is the same in each turn of the loops round it;
//! otherwise each turn copies its element to the scalar.
#![tactic(auto)]

mod elements;
mod extents;
mod laws;
mod made;
mod nests;
mod parts;
mod privates;
mod texts;
mod values_behind;

pub use elements::Expansion;
pub use extents::extents_of;
pub use laws::{
    expanded_loop_goes_on, expanded_nest_goes_on, extents_cover, last_values_go_on, trips_end,
};
pub use nests::expand;
pub use privates::{Private, RoundLoop, private_scalars};
pub use texts::extent_texts;
