//! Blocks in the place of some loops of a program.
mod counting;
mod placing;

pub use placing::place;
