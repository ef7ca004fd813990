//! Whether the names in a Fortran 90 text are declared, whether the kinds and the ranks in its statements suit, and the
//! trees of its statements then (ISO/IEC 1539:1991, sections 5, 6, 7.5, 8.1 and 9.4).
mod executable;
mod known;
mod suited;
mod treed;

pub use known::first_unknown;
pub use suited::first_unsuited;
pub use treed::trees;
