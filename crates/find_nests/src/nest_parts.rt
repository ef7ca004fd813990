//! The parts of a nest that the statements of a program are, with their loops numbered.
mod parts;

pub use parts::Numbering;
