//! The declared names of a program of Fortran 90 (ISO/IEC 1539:1991, section 5).
mod bounds;
mod declaring;
mod limits;
mod names;

pub use declaring::declarations;
pub use limits::{first_beyond_bounds, first_beyond_elements, first_beyond_names};
pub use names::{Declared, Names, first_repeated};
