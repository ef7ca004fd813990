//! The lines of a deck, and its two parts.
ghost use Rattle.std.specs.Prelude.{◌≡◌, ◌==◌, ◌<◌, ◌≢◌, length, position, IfSome, MatchOption, [], ◌+◌};
ghost use Rattle.std.specs.List.{AllByRecursion};
ghost use Rattle.std.specs.Option.{option_copied};
ghost use Rattle.std.specs.Str.{bytes_eq};
ghost use Rattle.std.specs.Str.Lines.{strip_carriage_return};
ghost use Rattle.meaning.specs.Deck.{source_of, input_of, has_data};
ghost use Rattle.meaning.specs.decks.FirstLine.{IsFirstLine, joined_at, characters};
ghost use Rattle.meaning.specs.decks.Parts.{is_there, bytes_in};

/// The line between a deck's source and its input.
#[derive(Clone, Copy)]
pub enum DataLine {
    /// `*DATA`
    Fortran77,
    /// `!DATA`
    Fortran90,
}

// The place of the first such byte.
fn first(text: &[u8], byte: u8) -> Option<usize>
    ensures { result ≡ position (λ b. b == byte) text.now }
{
    text.iter().position(|b| *b == byte)
}

// What stands before the first such byte, and what stands after it, if there is one.
#[tactic(auto, using(crate::proofs::decks::Cuts::cut_laws))]
fn cut(text: &[u8], byte: u8) -> (&[u8], Option<&[u8]>)
    ensures whole { text.now ≡ joined_at byte result.0.now (option_copied result.1) }
    ensures none_before { AllByRecursion (λ b. b ≢ byte) result.0.now }
    ensures shorter { IfSome (option_copied result.1) (λ rest. length rest < length text.now) }
{
    match first(text, byte) {
        None => (text, None),
        Some(at) => (&text[..at], Some(&text[at + 1..])),
    }
}

// The line without a carriage return at its end.
fn without_return(line: &[u8]) -> &[u8]
    ensures { result.now ≡ strip_carriage_return line.now }
{
    match line.split_last() {
        Some((b'\r', front)) => front,
        _ => line,
    }
}

/// The first line, without its end, and what follows it.
pub fn next_line(text: &[u8]) -> Option<(&[u8], &[u8])>
    ensures { MatchOption result (text.now ≡ []) (λ r. IsFirstLine text.now r.0.now r.1.now) }
{
    if text.is_empty() {
        return None;
    }
    let (line, rest) = cut(text, b'\n');
    match rest {
        None => Some((line, &[])),
        Some(rest) => Some((without_return(line), rest)),
    }
}

fn is_data_line(data_line: DataLine, line: &[u8]) -> bool
    ensures { result ≡ bytes_eq line.now (characters data_line) }
{
    match data_line {
        DataLine::Fortran77 => line == b"*DATA".as_slice(),
        DataLine::Fortran90 => line == b"!DATA".as_slice(),
    }
}

/// What stands before the first data line, and what stands after it, if there is one.
#[tactic(auto, using(crate::proofs::decks::Parts::part_laws))]
pub fn source_and_input(deck: &[u8], data_line: DataLine) -> (&[u8], Option<&[u8]>)
    ensures source { result.0.now ≡ source_of (characters data_line) deck.now }
    ensures input { bytes_in (option_copied result.1) ≡ input_of (characters data_line) deck.now }
    ensures there { is_there (option_copied result.1) ≡ has_data (characters data_line) deck.now }
{
    let mut rest = deck;
    while let Some((line, after)) = next_line(rest) {
        if is_data_line(data_line, line) {
            return (&deck[..deck.len() - rest.len()], Some(after));
        }
        rest = after;
    }
    (deck, None)
}

/// The bytes of the input, none where there is no input.
pub fn bytes_of(input: Option<&[u8]>) -> &[u8]
    ensures { result.now ≡ bytes_in (option_copied input.entry) }
{
    match input {
        Some(bytes) => bytes,
        None => &[],
    }
}
