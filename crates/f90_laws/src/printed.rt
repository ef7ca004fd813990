//! Laws of printed programs of Fortran 90: a program's text is read back as that program.
//!
//! Proved (laws): each statement of a printed program of the profile is written in the words of its form, in printable
//! characters, without a comment and with each constant closed (`printed_is_spelled`); the text of a printed program,
//! with notes before it, has the statements of that program, with its marks, on other lines
//! (`printed_program_is_read_back`); its lines have at most 132 printable characters (`printed_lines_are_free`).
ghost use Rattle.f90_laws.specs.printed.Spelled.{PrintedIsSpelled};

mod reading_back;

pub use reading_back::{printed_lines_are_free, printed_program_is_read_back};

/// Each statement of a printed program is written in the words of its form (ISO/IEC 1539:1991, section 3.2), in
/// printable characters and without a comment.
pub fn printed_is_spelled()
    ensures { PrintedIsSpelled }
{}
