//! The names of a program.
use crate::texts::{push, push_names};
use rewrite::{names_read, names_written};
use std::alloc::Global;
use tree::{Block, Memory};

/// Adds a line of the names that a block reads, and one of those that it writes.
pub(crate) fn push_block_names(
    out: &mut Vec<u8>,
    alloc: Global,
    block: &Block,
) -> Result<(), Memory> {
    push(out, b"reads")?;
    push_names(out, names_read(alloc, block)?.as_slice())?;
    push(out, b"\nwrites")?;
    push_names(out, names_written(alloc, block)?.as_slice())?;
    push(out, b"\n")
}
