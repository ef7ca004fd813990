//! Texts of Fortran 90 as they are printed.
use crate::texts::{push, push_refusal};
use f90_print::print90;
use f90_read::read90;
use std::alloc::Global;
use tree::{Memory, Program90, Refused, Seq};

fn push_program(out: &mut Vec<u8>, alloc: Global, program: &Program90) -> Result<(), Memory> {
    push(out, print90(alloc, program, &Seq::new(alloc))?.as_slice())
}

/// Adds the program that a text is, as it is printed, or why the text is refused.
pub(crate) fn push_printed(out: &mut Vec<u8>, alloc: Global, text: &[u8]) -> Result<(), Memory> {
    if text.len() >= 1 << 32 {
        return push(out, b"too long\n");
    }
    match read90(alloc, text) {
        Ok(program) => push_program(out, alloc, &program),
        Err(Refused::Refusal(refusal)) => push_refusal(out, refusal),
        Err(Refused::Memory) => Err(Memory),
    }
}
