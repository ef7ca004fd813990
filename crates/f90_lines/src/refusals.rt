//! Why the lines of a text are refused.
ghost use Rattle.std.specs.Prelude.{◌≡◌, ◌+◌, ◌^◌, ◌<◌, length, None, IfSome, IfNone, MatchOption};
ghost use Rattle.std.specs.Str.Lines.{lines};
ghost use Rattle.tree.specs.declared.refusals.Refusal.{Refusal};
ghost use Rattle.reading.specs.refusal_order.Answered.{IsAnswered};
ghost use Rattle.f90_grammar.specs.LineCauses.{HasLineCause, is_in_constant, initial_line};
ghost use Rattle.f90_grammar.specs.LineCauses as grammar;
ghost use Rattle.f90_lines.specs.Standings.{behind_part, behind_line, behind_lines, has_bad_byte, first_bad};
ghost use Rattle.f90_lines.specs.Standings.{first_long, is_long, initial_of};
ghost use Rattle.f90_lines.specs.Views.{part_seen, standing_seen};

use crate::lines::{Line, Lines};
use crate::parts;
use crate::parts::{LinePart, is_comment_line, is_open_behind, part_in};
use tree::{Cause, Refusal};

/// How many characters a line has at most (ISO/IEC 1539:1991, section 3.3.1).
const LINE_CHARACTERS: usize = 132;

/// What stands behind the first lines of a text: the next statement is to begin, or one is continued.
#[derive(Clone, Copy, Debug)]
pub(crate) enum Standing {
    Between,
    /// The line in which it began, and whether a constant is open in it.
    Within(u32, bool),
}

impl Standing {
    fn is_in_constant(self) -> bool
        ensures { result ≡ is_in_constant (standing_seen self) }
    {
        match self {
            Standing::Between => false,
            Standing::Within(_, in_constant) => in_constant,
        }
    }

    // The initial line of the statement that has a part in this line.
    fn initial_line(self, number: u32) -> u32
        ensures { result ≡ initial_line number (standing_seen self) }
    {
        match self {
            Standing::Between => number,
            Standing::Within(initial, _) => initial,
        }
    }

    fn behind_part(self, number: u32, part: &LinePart<'_>) -> Standing
        ensures { standing_seen result ≡ behind_part number (standing_seen self) (part_seen part.now) }
    {
        if !part.is_continued {
            return Standing::Between;
        }
        let in_constant = is_open_behind(self.is_in_constant(), part.chars);
        Standing::Within(self.initial_line(number), in_constant)
    }

    fn behind_line(self, line: &Line<'_>) -> Standing
        ensures { standing_seen result ≡ behind_line line.now.number (standing_seen self) line.now.text.now }
    {
        if is_comment_line(line.text) {
            return self;
        }
        self.behind_part(line.number, &part_in(self.is_in_constant(), line.text))
    }

    fn has_bad_byte(self, line: &Line<'_>) -> bool
        ensures { result ≡ has_bad_byte (standing_seen self) line.now.text.now }
    {
        !is_comment_line(line.text)
            && parts::has_bad_byte(part_in(self.is_in_constant(), line.text).chars)
    }
}

fn first_bad_byte(text: &[u8]) -> Option<u32>
    requires { length text.now < 2 ^ 32 }
    ensures { result ≡ first_bad 0 grammar.Between (lines text.now) }
{
    let mut standing = Standing::Between;
    let mut lines = Lines::new(text);
    'bad: while let Some(line) = lines.next() {
        if standing.has_bad_byte(&line) {
            return Some(line.number);
        }
        standing = standing.behind_line(&line);
    }
    None
}

fn first_long_line(text: &[u8]) -> Option<u32>
    requires { length text.now < 2 ^ 32 }
    ensures { result ≡ first_long 0 (lines text.now) }
{
    let mut lines = Lines::new(text);
    'long: while let Some(line) = lines.next() {
        if line.text.len() > LINE_CHARACTERS {
            return Some(line.number);
        }
    }
    None
}

// The first line of the statement that is continued where the text ends.
fn unended(text: &[u8]) -> Option<u32>
    requires { length text.now < 2 ^ 32 }
    ensures { result ≡ initial_of (behind_lines 0 grammar.Between (lines text.now)) }
{
    let mut standing = Standing::Between;
    let mut lines = Lines::new(text);
    'unended: while let Some(line) = lines.next() {
        standing = standing.behind_line(&line);
    }
    match standing {
        Standing::Between => None,
        Standing::Within(initial, _) => Some(initial),
    }
}

/// Why the lines of a text are refused: the least number, then the first line.
pub(crate) fn refusal(text: &[u8]) -> Option<Refusal>
    requires { length text.now < 2 ^ 32 }
    ensures refused { IfSome result (IsAnswered (HasLineCause text.now)) }
    ensures unrefused { IfNone result ((r : Refusal) → HasLineCause text.now r → ⊥) }
{
    if let Some(line) = first_bad_byte(text) {
        return Some(Cause::BadByte90.at(line));
    }
    if let Some(line) = first_long_line(text) {
        return Some(Cause::LongLine.at(line));
    }
    let initial = unended(text)?;
    Some(Cause::Continuation.at(initial))
}
