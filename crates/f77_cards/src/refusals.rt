//! Why the lines of a source are refused.
ghost use Rattle.std.specs.Prelude.{◌≡◌, ◌+◌, ◌^◌, ◌<◌, ◌≤◌, length, unwrap_or, None};
ghost use Rattle.std.specs.List.{list_any, list_all};
ghost use Rattle.tree.specs.Causes.{refusal_at};
ghost use Rattle.f77_grammar.specs.Cards.LineCause.{LineForm};
ghost use Rattle.f77_grammar.specs.Cards.{statement_lines, cause_of_line, is_bad_byte77, is_tab, is_label_character};
ghost use Rattle.f77_grammar.proofs.CardCauses.{after_line, is_wrong, first_wrong, refusal_of};
ghost use Rattle.f77_cards.specs.Source.{line_of, cause_of};

use crate::source::{BLANK, Line, Lines, is_blank};
use tree::{CONTINUATION_LINES, Cause, Refusal, SOURCE_BYTES};

/// What may be wrong with a line.
#[derive(Clone, Copy, Debug, PartialEq, Eq)]
pub(crate) enum LineCause {
    BadByte,
    Tab,
    LineForm,
    ManyLines,
}

impl LineCause {
    // The refusal of a source for it, at this line.
    fn at(self, line: u32) -> Refusal
        ensures { result ≡ refusal_at (cause_of_line (cause_of self)) line }
    {
        match self {
            LineCause::BadByte => Cause::BadByte.at(line),
            LineCause::Tab => Cause::Tab.at(line),
            LineCause::LineForm => Cause::LineForm.at(line),
            LineCause::ManyLines => Cause::ManyLines.at(line),
        }
    }
}

// The one that is answered first stands first.
const LINE_CAUSES: [LineCause; 4] = [
    LineCause::BadByte,
    LineCause::Tab,
    LineCause::LineForm,
    LineCause::ManyLines,
];

#[tactic(auto, unfolding(f77_grammar::specs::Cards::is_bad_byte77))]
fn is_bad_byte(byte: u8) -> bool
    ensures { result ≡ is_bad_byte77 byte }
{
    !matches!(byte, b'\t' | b' '..=b'~')
}

#[tactic(auto, unfolding(f77_grammar::specs::Cards::is_label_character))]
fn is_label_character(byte: u8) -> bool
    ensures { result ≡ is_label_character byte }
{
    byte == BLANK || byte.is_ascii_digit()
}

fn has_bad_byte(columns: &[u8]) -> bool
    ensures { result ≡ list_any is_bad_byte77 columns.now }
{
    columns.iter().any(|byte| is_bad_byte(*byte))
}

fn has_tab(columns: &[u8]) -> bool
    ensures { result ≡ list_any is_tab columns.now }
{
    columns.iter().any(|byte| *byte == b'\t')
}

fn is_label(field: &[u8]) -> bool
    ensures { result ≡ list_all is_label_character field.now }
{
    field.iter().all(|byte| is_label_character(*byte))
}

// How many continuation lines the statement of this line has up to it; None before the first initial line.
fn place_after(place: Option<u32>, line: &Line) -> Option<u32>
    requires { unwrap_or place 0 < 2 ^ 20 }
    ensures { result ≡ after_line place (line_of line.now) }
{
    if line.is_initial() {
        Some(0)
    } else {
        place.map(|count| count + 1)
    }
}

fn is_wrong_form(place: Option<u32>, line: &Line) -> bool
    ensures { result ≡ is_wrong LineForm place (line_of line.now) }
{
    if line.is_initial() {
        !is_label(line.label_field()) || is_blank(line.statement_field())
    } else {
        place.is_none() || !is_blank(line.label_field())
    }
}

fn is_wrong(cause: LineCause, place: Option<u32>, line: &Line) -> bool
    ensures { result ≡ is_wrong (cause_of cause) place (line_of line.now) }
{
    match cause {
        LineCause::BadByte => has_bad_byte(&line.columns),
        LineCause::Tab => has_tab(&line.columns),
        LineCause::LineForm => is_wrong_form(place, line),
        LineCause::ManyLines => !line.is_initial() && place == Some(CONTINUATION_LINES),
    }
}

/// The first line at which the cause holds.
fn first_wrong(cause: LineCause, text: &[u8]) -> Option<u32>
    requires { length text.now ≤ 2 ^ 20 }
    ensures { result ≡ first_wrong (cause_of cause) None (statement_lines text.now) }
{
    let mut place = None;
    for line in Lines::new(text) {
        if is_wrong(cause, place, &line) {
            return Some(line.number);
        }
        place = place_after(place, &line);
    }
    None
}

/// The refusal of a source, if it is refused: the least number, then the first line.
#[tactic(auto, unfolding(f77_grammar::proofs::CardCauses::refusal_of))]
pub(crate) fn refusal(text: &[u8]) -> Option<Refusal>
    ensures { result ≡ refusal_of text.now }
{
    if text.len() > SOURCE_BYTES {
        return Some(Cause::TooLong.at(0));
    }
    for cause in LINE_CAUSES {
        if let Some(line) = first_wrong(cause, text) {
            return Some(cause.at(line));
        }
    }
    None
}
