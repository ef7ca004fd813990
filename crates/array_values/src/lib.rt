//! Arrays as values: known arrays, arrays whose elements are computed when they are asked for, and what references to
//! parts of arrays select (ISO/IEC 1539:1991, sections 2.4.5, 6.2.2, 7.1.5 and 13.13).
//!
//! Proved: an array is known, or has its operations left to each position, and is then exactly the array of the
//! definitions (`elements_in`): its element at each position (`Prepared::at`), its extents, operators and whether
//! operands conform (`binary`, `check_conform`), SPREAD, TRANSPOSE, RESHAPE, SUM, MAXVAL and MINVAL, all its elements
//! in order (`in_whole`), those at given places, the places where a mask is true, and what subscripts select, with
//! Bounds and ZeroStep exactly where the definitions have them (`axes`). Want of memory alone is free.
#![tactic(auto)]

mod counts;
mod extents;
mod failure;
mod known;
mod prepared;
mod sections;
pub mod storage;

pub use counts::Range;
pub use extents::check_conform;
pub use failure::Failure;
pub use known::Known;
pub use prepared::{Prepared, common_extents};
pub use sections::{Axis, Selector, axes, extents_of};
