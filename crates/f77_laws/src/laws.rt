//! Laws of texts that are read or refused. A law is a function without a body: its contract is what holds.
ghost use Rattle.f77_laws.specs.FirstFinding.{FirstIsRefused, RefusalIsFirst};
ghost use Rattle.f77_laws.specs.Reading.{ReadExpressionIsSource, ReadTextIsProgram, RisingLinesAreFew};

/// A text without findings, whose statements are such as cards give, is read as a program of the profile.
pub fn read_text_is_program()
    ensures { ReadTextIsProgram }
{}

/// Where lines rise, the refusal of a text has a cause that holds at its line first, and the text is refused by the
/// first of the causes that hold in it.
pub fn refusal_is_first()
    ensures line { RefusalIsFirst }
    ensures refused { FirstIsRefused }
{}

/// What is read as an expression has symbolic names, and literals from 0 to 2^127-1, and is at most 400 deep.
pub fn read_expression_is_source()
    ensures { ReadExpressionIsSource }
{}

/// Statements on rising lines are no more than lines.
pub fn rising_lines_are_few()
    ensures { RisingLinesAreFew }
{}
