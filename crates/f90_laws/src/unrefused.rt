//! Laws of printed programs of Fortran 90: no cause of refusal holds in a printed program's text.
//!
//! Proved (a law): no cause of refusal holds in the lines of a printed program, nor in its statements
//! (`printed_program_is_read_well`).
ghost use Rattle.f90_laws.specs.unrefused.Unrefused.{PrintedProgramIsReadWell};

/// The text of a printed program, with notes before it, is read back, and no cause of refusal holds in its lines or
/// statements but for the number of names.
pub fn printed_program_is_read_well()
    ensures { PrintedProgramIsReadWell }
{}
