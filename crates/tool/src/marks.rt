//! Which marks of a translation are those of array statements.
ghost use Rattle.std.specs.Prelude.{◌≡◌, ◌++◌, List, ℕ, codes, is_some, option_copied, position};
ghost use Rattle.std.specs.List.{before_first, after_first};
ghost use Rattle.meaning.specs.Deck.{lines_of};
ghost use Rattle.tool.specs.ArrayMarks.{part_behind, begins, numbers_listed, loops_listed, first_listed, loops_round};
ghost use Rattle.tool.specs.ArrayMarks.{is_at_most, is_array_mark};
ghost use Rattle.reading.specs.Characters.{is_blank};
ghost use Rattle.tool.specs.commands.Command.{number_of_word};

use crate::commands::number;
use meaning::decks::next_line;
use std::str;

// What stands behind these characters, where the line begins with them.
fn behind<'a>(line: &'a [u8], front: &[u8]) -> Option<&'a [u8]>
    ensures { option_copied result ≡ part_behind front.now line.now }
{
    line.strip_prefix(front)
}

// What stands behind these characters, the word and more characters.
#[tactic(auto, using(crate::proofs::MarkLaws::behind_laws))]
fn behind_word<'a>(line: &'a [u8], front: &[u8], word: &[u8], end: &[u8]) -> Option<&'a [u8]>
    ensures { option_copied result ≡ part_behind (front.now ++ word.now ++ end.now) line.now }
{
    let rest = behind(line, front)?;
    let rest = behind(rest, word)?;
    behind(rest, end)
}

/// Whether the line begins with these characters.
pub(crate) fn begins(line: &[u8], front: &[u8]) -> bool
    ensures { result ≡ begins front.now line.now }
{
    behind(line, front).is_some()
}

// How many numbers a list with commas has.
#[rattlefmt::skip]
#[tactic(auto, using(crate::proofs::MarkLaws::end_reached, crate::proofs::MarkLaws::comma_passed,
    crate::proofs::MarkLaws::other_passed))]
fn numbers_listed(text: &[u8]) -> usize
    ensures { result ≡ numbers_listed text.now }
{
    let mut numbers = 1;
    for byte in text {
        if *byte == b')' {
            return numbers;
        }
        if *byte == b',' {
            numbers += 1;
        }
    }
    numbers
}

// How many loops the line names, where it is the statement's.
fn loops_listed(line: &[u8], statement: &[u8]) -> Option<usize>
    ensures { result ≡ loops_listed statement.now line.now }
{
    let numbers = behind_word(line, b"!G STMT S", statement, b" (")?;
    Some(numbers_listed(numbers))
}

// How many loops stand round the statement, by the first line of it.
#[tactic(auto, using(crate::proofs::MarkLaws::listed_none, crate::proofs::MarkLaws::listed_some))]
fn first_listed(text: &[u8], statement: &[u8]) -> usize
    ensures { result ≡ first_listed statement.now (lines_of text.now) }
{
    let mut rest = text;
    while let Some((line, after)) = next_line(rest) {
        if let Some(loops) = loops_listed(line, statement) {
            return loops;
        }
        rest = after;
    }
    0
}

// How many loops stand round the statement of the nest.
#[tactic(auto, using(crate::proofs::MarkLaws::round_laws))]
fn loops_round(text: &[u8], nest: &[u8], statement: &[u8]) -> usize
    ensures { result ≡ loops_round (lines_of text.now) nest.now statement.now }
{
    let mut rest = text;
    while let Some((line, after)) = next_line(rest) {
        if behind_word(line, b"!G NEST ", nest, b" LINE ").is_some() {
            return first_listed(after, statement);
        }
        rest = after;
    }
    0
}

// The place of the first blank.
fn first_blank(text: &[u8]) -> Option<usize>
    ensures { result ≡ position is_blank text.now }
{
    text.iter().position(|byte| *byte == b' ')
}

// What stands before the first blank, and what stands behind it.
fn cut(text: &[u8]) -> (&[u8], &[u8])
    ensures before { result.0.now ≡ before_first is_blank text.now }
    ensures after { result.1.now ≡ after_first is_blank text.now }
{
    match first_blank(text) {
        Some(at) => (&text[..at], &text[at + 1..]),
        None => (text, &[]),
    }
}

// The number that the digits are.
fn number_of(digits: &[u8]) -> Option<u64>
    ensures { result ≡ number_of_word digits.now }
{
    match str::from_utf8(digits) {
        Ok(digits) => number(digits),
        Err(_) => None,
    }
}

fn is_at_most(digits: &[u8], most: usize) -> bool
    ensures { result ≡ is_at_most (number_of_word digits.now) most }
{
    match number_of(digits) {
        Some(number) => number <= most as u64,
        None => false,
    }
}

/// Whether the line of the text is the mark of an array statement.
#[tactic(auto, unfolding(crate::specs::ArrayMarks::is_array_mark))]
pub(crate) fn is_array_mark(text: &[u8], line: &[u8]) -> bool
    ensures { result ≡ is_array_mark (lines_of text.now) line.now }
{
    let Some(mark) = behind(line, b"!S ") else {
        return false;
    };
    let (nest, rest) = cut(mark);
    let (statement, level) = cut(rest);
    is_at_most(level, loops_round(text, nest, statement))
}
