//! The directions of transfer.

/// Whether a list is of PRINT or of READ.
#[derive(Clone, Copy, Debug, PartialEq, Eq)]
pub enum Direction {
    Output,
    Input,
}
