//! Laws of reading Fortran 90: the text of a printed program is read as that program, and no text as two programs.
//!
//! Proved (a law): so a printed program's text is read as that program, with a title and on other lines
//! (`printed_program_is_read`); and no text is read as two programs (`one_program`).
ghost use Rattle.f90_laws.specs.read_back.Laws.{PrintedProgramIsRead, OneProgram};

/// The text of a printed program, with notes before it, conforms as the program: its declarations, and its statements
/// with their marks, on the lines where the text has them.
pub fn printed_program_is_read()
    ensures { PrintedProgramIsRead }
{}

/// No text conforms as two programs, and so none is read as two.
pub fn one_program()
    ensures { OneProgram }
{}
