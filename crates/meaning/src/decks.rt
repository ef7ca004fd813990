//! A deck as bytes: its lines, its source and its input.
//!
//! Proved (`source_and_input`): the two parts of a deck of either language, and whether it has a data line.
mod lines;

pub use lines::{DataLine, bytes_of, next_line, source_and_input};
