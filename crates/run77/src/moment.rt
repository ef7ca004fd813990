//! A moment of a run.
use machine::{Progress, Storage};

/// What is where in a run: the values of the program's names, and how far the run is.
#[derive(Drop)]
pub struct Moment {
    pub(crate) storage: Storage,
    pub(crate) progress: Progress,
}
