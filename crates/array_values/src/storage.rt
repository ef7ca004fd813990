//! The store of a Fortran 90 program: the values of its names, in one list for each, with arrays that come and go
//! (ISO/IEC 1539:1991, sections 2.4, 6.2 and 6.3).
//!
//! **array_values::storage::array_places**: the place of an element of a Fortran 90 array, or that it has none
//! (`place`), also where other dimensions are empty; the extents and places of what subscripts select, or of all
//! (`select`, `select_all`); and what an array assignment stores under a mask, with the first fault of the stages
//! behind the evaluation of its parts: the mask's elements, the right side's where the mask is true, the range
//! (`writes_under`).
//!
//! Proved: `Storage` has the declared names in order, a table of where each stands, and for each name whether it has
//! elements now, its bounds and the values of its elements in column-major order. `store_in` is the store of the
//! meaning that it stands for: a cell with a place holds the value there, another one what it held when the run began.
//! An array that is deallocated keeps its values until it is allocated again, as the meaning's store does. Proved of
//! the public calls, each for any names and any bounds that a declaration or ALLOCATE gives:
//!
//! - `new`: the storage stands for the opening store (`opened`), and each name has its declared kind (`kinds`). The
//!   names are distinct.
//! - `find`: the slot of a name, or there is none (`Has`, `IsMissing`).
//! - `place`: exactly `cell_at`: the cell's place, or the same fault (`found`); a value stands there (`within`).
//! - `value`, `put`: the value at a cell's place is what the cell holds; after `put` the store is `put c v` of the old
//!   one, for every cell c of that place (`stored`), and all names, kinds, bounds and places are as before (`kept`). No
//!   two cells share a place (`one_cell`).
//! - `whole`, `part`: the array of all values of a name, and of those that evaluated subscripts select, exactly, with
//!   the first fault (`Answers`).
//! - `target`, `target_part`: the extents and places of the same elements, where values can be put (`IsTarget`: each
//!   place is that of its cell, and a value stands there), with the first fault.
//! - `is_scalar`: exactly that the name has no dimensions now.
//! - `allocate`: Ok exactly where the array isn't allocated, and then the store is `allocated x (1:n ..)` of the old
//!   one wherever the name's cells hold values of its kind; the fault and an unchanged storage elsewhere; unchanged too
//!   where there is no memory, which comes only where the array is to have elements.
//! - `deallocate`: exactly `bounds_of` and `with_bounds x None`.
//!
//! More elements than 2^64 - 1, or an extent outside 64 bits of an array that has elements, are answered as want of
//! memory.
//!
//! **Each name of the array machine has a list of its own.** Not one list for all declared names: fixed and allocatable
//! arrays are then one case, and a place is a name's number and an element's number. A run makes its storage anew from
//! the declarations, so nothing of an earlier run is left in it.
//!
//! **An array without elements takes no memory for its extents.** ALLOCATE may give it extents beyond 64 bits. Nothing
//! is selected of it, so no numbers are listed: that those of a triplet stand within the bounds is seen from the first
//! and the last, and how many they are from the stride.
mod allocation;
pub mod array_places;
mod bounds;
mod cells;
mod opening;
mod selected;
mod showing;
mod slots;
mod storage;
mod targets;

pub use bounds::ranges_from_one;
pub use slots::{Place, Slot};
pub use storage::Storage;
pub use targets::Target;
