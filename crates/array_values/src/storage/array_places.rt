//! The places of elements and of what references select, among the elements of arrays in column-major order (ISO/IEC
//! 1539:1991, section 6.2.2.2).
mod elements;
mod selected;
mod selection;
mod writes;

pub use elements::{count, extents, place, size};
pub use selected::{places, values_at};
pub use selection::{Selection, select, select_all};
pub use writes::{Writes, writes_under};
