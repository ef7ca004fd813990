//! The lines of a source.
ghost use Rattle.std.specs.Prelude.{◌≡◌, ◌+◌, ◌^◌, ◌<◌, ◌≤◌, [], ◌∷◌, length, position, IsTrue, IfSome, IfNone};
ghost use Rattle.std.specs.List.{list_all};
ghost use Rattle.std.specs.Str.Lines.{lines, strip_carriage_return};
ghost use Rattle.f77_grammar.specs.Cards.{columns_of, is_comment, is_initial, is_continuation, label_field};
ghost use Rattle.reading.specs.Characters.{is_blank};
ghost use Rattle.f77_grammar.specs.Cards.{statement_field, statement_lines};
ghost use Rattle.f77_grammar.proofs.Grouping.{leading};
ghost use Rattle.f77_cards.specs.Source.{line_of};
ghost use Rattle.f77_grammar.proofs.FirstLine.{is_feed};

/// How many columns of a line count.
const COLUMNS: usize = 72;

pub(crate) const BLANK: u8 = b' ';

/// A line that is no comment line: its number, from 1, and its columns 1 to 72.
#[derive(Clone, Copy, Debug)]
pub(crate) struct Line {
    pub number: u32,
    pub columns: [u8; COLUMNS],
}

impl Line {
    /// Whether a statement begins here: column 6 is a blank or a 0.
    #[tactic(auto, unfolding(f77_grammar::specs::Cards::is_initial))]
    pub fn is_initial(&self) -> bool
        ensures { result ≡ is_initial (line_of self.now) }
    {
        matches!(self.columns[5], b' ' | b'0')
    }

    /// Columns 1 to 5.
    pub fn label_field(&self) -> &[u8]
        ensures { result.now ≡ label_field (line_of self.now) }
    {
        &self.columns[..5]
    }

    /// Columns 7 to 72.
    pub fn statement_field(&self) -> &[u8]
        ensures { result.now ≡ statement_field (line_of self.now) }
    {
        &self.columns[6..]
    }
}

/// The lines of a text that are no comment lines, with their numbers.
#[derive(Clone, Copy, Debug)]
pub(crate) struct Lines<'a> {
    number: u32,
    rest: &'a [u8],
    ghost in_range: { number + length rest.now < 2 ^ 32 },
}

impl<'a> Lines<'a> {
    ghost use Rattle.f77_cards.specs.Left.{lines_left};

    pub fn new(text: &'a [u8]) -> Lines<'a>
        requires { length text.now ≤ 2 ^ 20 }
        ensures { lines_left result ≡ statement_lines text.now }
    {
        Lines {
            number: 1,
            rest: text,
        }
    }

    /// Takes the next line, if it is a continuation line.
    pub fn next_continuation(&mut self) -> Option<Line>
        ensures taken { IfSome result (λ line. lines_left self.old ≡ line_of line ∷ lines_left self.new) }
        ensures continuation { IfSome result (λ line. IsTrue (is_continuation (line_of line))) }
        ensures none { IfNone result (self.new ≡ self.old) }
        ensures initial { IfNone result (leading (lines_left self.old) ≡ []) }
    {
        let mut ahead = *self;
        let line = ahead.next()?;
        if line.is_initial() {
            return None;
        }
        *self = ahead;
        Some(line)
    }
}

impl Iterator for Lines<'_> {
    type Item = Line;

    ghost use Rattle.std.specs.Iterator.{YieldsFirstBy, item_count};
    ghost use Rattle.f77_cards.specs.Source.{line_of};
    ghost use Rattle.f77_cards.specs.Left.{lines_left};

    ghost next_gives = { YieldsFirstBy line_of lines_left };

    ghost remaining = { item_count lines_left };

    fn next(&mut self) -> Option<Line> {
        while !self.rest.is_empty() {
            let (line, rest) = first_line(self.rest);
            let number = self.number;
            self.number += 1;
            self.rest = rest;
            let columns = columns(line);
            if !is_comment(&columns) {
                return Some(Line { number, columns });
            }
        }
        None
    }
}

/// Whether nothing is written in these columns.
pub(crate) fn is_blank(columns: &[u8]) -> bool
    ensures { result ≡ list_all is_blank columns.now }
{
    columns.iter().all(|column| *column == BLANK)
}

/// Whether these columns are those of a comment line: C, c or * stands in column 1, or all are blank.
#[tactic(auto, unfolding(f77_grammar::specs::Cards::is_comment))]
fn is_comment(columns: &[u8; COLUMNS]) -> bool
    ensures { result ≡ is_comment columns.now }
{
    matches!(columns[0], b'C' | b'c' | b'*') || is_blank(columns)
}

fn line_feed(text: &[u8]) -> Option<usize>
    ensures { result ≡ position is_feed text.now }
{
    text.iter().position(|byte| *byte == b'\n')
}

fn without_carriage_return(line: &[u8]) -> &[u8]
    ensures { result.now ≡ strip_carriage_return line.now }
{
    match line.split_last() {
        Some((last, front)) if *last == b'\r' => front,
        _ => line,
    }
}

/// The first line, without its end, and what stands after it.
pub(crate) fn first_line(text: &[u8]) -> (&[u8], &[u8])
    requires { 0 < length text.now }
    ensures first { lines text.now ≡ result.0.now ∷ lines result.1.now }
    ensures shorter { length result.1.now < length text.now }
{
    match line_feed(text) {
        Some(end) => (without_carriage_return(&text[..end]), &text[end + 1..]),
        None => (text, &text[text.len()..]),
    }
}

/// Columns 1 to 72, with blanks where the line is short.
pub(crate) fn columns(line: &[u8]) -> [u8; COLUMNS]
    ensures { result ≡ columns_of line.now }
{
    let mut columns = [BLANK; COLUMNS];
    let width = line.len().min(COLUMNS);
    columns[..width].copy_from_slice(&line[..width]);
    columns
}
