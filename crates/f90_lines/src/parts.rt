//! The part of a statement that a line is.
ghost use Rattle.std.specs.Prelude.{◌≡◌, ◌+◌, ◌≤◌, length, take};
ghost use Rattle.std.specs.List.{list_all, list_any};
ghost use Rattle.f90_grammar.specs.FreeForm.{is_comment_line, is_open_behind};
ghost use Rattle.reading.specs.Characters.{is_blank};
ghost use Rattle.f90_grammar.specs.LineCauses.{is_bad_byte90};
ghost use Rattle.f90_lines.specs.Parts.{turned, without_comment, after_blanks, IsEnd, ended, pulled_part, part_of};
ghost use Rattle.f90_lines.specs.Views.{part_seen};

const BLANK: u8 = b' ';

/// The part of a statement that a line is.
#[derive(Clone, Copy, Debug)]
pub(crate) struct LinePart<'a> {
    /// An ampersand stands before the characters.
    pub is_pulled: bool,
    /// An ampersand stands behind them.
    pub is_continued: bool,
    pub chars: &'a [u8],
}

// Whether a constant is open behind the byte.
fn turned(in_constant: bool, byte: u8) -> bool
    ensures { result ≡ turned in_constant byte }
{
    if byte == b'\'' {
        !in_constant
    } else {
        in_constant
    }
}

// The line without its comment; whether a constant is open at its beginning is given.
fn without_comment(in_constant: bool, line: &[u8]) -> &[u8]
    ensures { result.now ≡ without_comment in_constant line.now }
{
    let mut open = in_constant;
    for at in 0..line.len() {
        if !open && line[at] == b'!' {
            return &line[..at];
        }
        open = turned(open, line[at]);
    }
    line
}

fn after_blanks(text: &[u8]) -> &[u8]
    ensures { result.now ≡ after_blanks text.now }
{
    let mut rest = text;
    'blanks: while let [b' ', tail @ ..] = rest {
        rest = tail;
    }
    rest
}

// How many bytes there are but for the blanks at the end.
fn end(text: &[u8]) -> usize
    ensures { IsEnd text.now result }
{
    let mut end = text.len();
    'blanks: while end > 0 && text[end - 1] == BLANK {
        end -= 1;
    }
    end
}

fn is_blank(text: &[u8]) -> bool
    ensures { result ≡ list_all is_blank text.now }
{
    text.iter().all(|byte| *byte == BLANK)
}

fn ended(is_pulled: bool, text: &[u8]) -> LinePart<'_>
    ensures { part_seen result ≡ ended is_pulled text.now }
{
    let end = end(text);
    if end > 0 && text[end - 1] == b'&' {
        LinePart {
            is_pulled,
            is_continued: true,
            chars: &text[..end - 1],
        }
    } else {
        LinePart {
            is_pulled,
            is_continued: false,
            chars: text,
        }
    }
}

// Behind a leading ampersand.
fn pulled_part(text: &[u8]) -> LinePart<'_>
    ensures { part_seen result ≡ pulled_part text.now }
{
    if is_blank(text) {
        LinePart {
            is_pulled: true,
            is_continued: true,
            chars: &[],
        }
    } else {
        ended(true, text)
    }
}

/// The part that a line is of a statement; whether a constant is open at its beginning is given.
pub(crate) fn part_in(in_constant: bool, line: &[u8]) -> LinePart<'_>
    ensures { part_seen result ≡ part_of in_constant line.now }
{
    let front = without_comment(in_constant, line);
    match after_blanks(front) {
        [b'&', rest @ ..] => pulled_part(rest),
        _ => ended(false, front),
    }
}

/// Whether nothing stands in the line but blanks and a comment.
#[tactic(auto, using(crate::proofs::PartLaws::comment_lines))]
pub(crate) fn is_comment_line(line: &[u8]) -> bool
    ensures { result ≡ is_comment_line line.now }
{
    match after_blanks(line) {
        [] => true,
        [first, ..] => *first == b'!',
    }
}

/// Whether a constant is open behind the characters; whether one is before them is given.
pub(crate) fn is_open_behind(in_constant: bool, chars: &[u8]) -> bool
    ensures { result ≡ is_open_behind in_constant chars.now }
{
    let mut open = in_constant;
    for byte in chars {
        open = turned(open, *byte);
    }
    open
}

/// Whether one of the characters isn't printable.
pub(crate) fn has_bad_byte(chars: &[u8]) -> bool
    ensures { result ≡ list_any is_bad_byte90 chars.now }
{
    chars.iter().any(|byte| !matches!(byte, b' '..=b'~'))
}
