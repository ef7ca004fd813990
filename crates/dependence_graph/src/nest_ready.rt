//! Whether a nest can be tested for dependences: its loops go from 1 by 1 to linear trips, and what it writes and reads
//! are scalars and elements of arrays.
//!
//! - Proved (`is_ready`): exactly whether a nest can be tested (`IsReady`). Want of memory is the only error.
mod conjunctions;
mod numbers;
mod ready;
mod references;
mod trips;

pub use ready::is_ready;
