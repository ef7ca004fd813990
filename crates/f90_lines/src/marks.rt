//! The marks that comment lines have.
ghost use Rattle.std.specs.Prelude.{◌≡◌, ◌+◌, ◌<◌, ◌≤◌, ◌^◌, length, position, IsTrue, take, drop};
ghost use Rattle.std.specs.List.{list_all};
ghost use Rattle.std.specs.Char.{is_ascii_digit};
ghost use Rattle.std.specs.Str.Parse.{digits_value};
ghost use Rattle.reading.specs.Characters.{is_blank};
ghost use Rattle.f90_lines.specs.Marks.{number_in, numbers_in, with_nest, behind_second, mark_in};

use tree::Mark;

/// How many digits a number of a mark has at most.
const DIGITS: usize = 10;

fn are_digits(text: &[u8]) -> bool
    ensures { result ≡ list_all is_ascii_digit text.now }
{
    text.iter().all(u8::is_ascii_digit)
}

// The number that the digits write.
fn value(digits: &[u8]) -> u64
    requires few { length digits.now ≤ 10 }
    requires digits { IsTrue (list_all is_ascii_digit digits.now) }
    ensures { result ≡ digits_value 10 digits.now }
{
    let mut value = 0;
    for digit in digits {
        value = value * 10 + u64::from(*digit - b'0');
    }
    value
}

fn number(text: &[u8]) -> Option<u32>
    ensures { result ≡ number_in text.now }
{
    if text.is_empty() || text.len() > DIGITS || !are_digits(text) {
        return None;
    }
    u32::try_from(value(text)).ok()
}

fn first_blank(text: &[u8]) -> Option<usize>
    ensures { result ≡ position is_blank text.now }
{
    text.iter().position(|byte| *byte == b' ')
}

// The mark of this nest whose other numbers are the text.
fn numbers_behind(nest: u32, text: &[u8]) -> Option<Mark>
    ensures { result ≡ behind_second nest text.now (position is_blank text.now) }
{
    let end = first_blank(text)?;
    let stmt = number(&text[..end])?;
    let level = number(&text[end + 1..])?;
    Some(Mark { nest, stmt, level })
}

// The mark whose numbers are the text.
fn numbers(text: &[u8]) -> Option<Mark>
    ensures { result ≡ numbers_in text.now }
{
    let end = first_blank(text)?;
    let nest = number(&text[..end])?;
    numbers_behind(nest, &text[end + 1..])
}

/// The mark of a comment line, if it has one.
pub(crate) fn mark(line: &[u8]) -> Option<Mark>
    ensures { result ≡ mark_in line.now }
{
    match line {
        [b'!', b'S', b' ', text @ ..] => numbers(text),
        _ => None,
    }
}
