//! A name with the values of its elements.
ghost use Rattle.std.specs.Prelude.{◌≡◌, vec_len};
ghost use Rattle.meaning.specs.Extents.{elements_of};
ghost use Rattle.array_values.specs.storage.Bounds.{bounds_held};

use crate::storage::bounds::Bounds;
use tree::{Kind, Name, Value};

/// A declared name: whether it has elements now, and the values of its elements in column-major order. A scalar has one
/// element. An array that is deallocated keeps its last bounds and values, which nothing reads, until it is allocated
/// again.
#[derive(Drop)]
pub struct Slot {
    pub(crate) name: Name,
    pub(crate) kind: Kind,
    pub(crate) there: bool,
    pub(crate) bounds: Bounds,
    pub(crate) values: Vec<Value>,
    ghost filled: { vec_len values ≡ elements_of (bounds_held bounds) },
}

/// Where a scalar's or an element's value stands: the name's place in the order of declarations, and the element's
/// among those of the name.
#[derive(Clone, Copy, Debug, PartialEq, Eq)]
pub struct Place {
    pub slot: usize,
    pub at: usize,
}
