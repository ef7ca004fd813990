//! Laws of reading back. A law is a function without a body: its contract is what holds.
ghost use Rattle.f90_laws.specs.printed.Laws.{PrintedLinesAreFree, PrintedProgramIsReadBack};

/// The text of a printed program, with notes before it, is read as that program: its declarations, its statements,
/// marks and labels (ISO/IEC 1539:1991, section 11.1). A program without a name gets one, and each statement has the
/// number of its line in the text.
pub fn printed_program_is_read_back()
    ensures { PrintedProgramIsReadBack }
{}

/// No line of it is longer than a line of free form may be (ISO/IEC 1539:1991, section 3.3.1), and all characters are
/// printable.
pub fn printed_lines_are_free()
    ensures { PrintedLinesAreFree }
{}
