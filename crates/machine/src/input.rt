//! The input of READ: bytes, values and lines (ANSI X3.9-1978, sections 12.3 and 13.6).
ghost use Rattle.std.specs.Prelude.{◌≡◌, ◌≢◌, ◌<◌, ◌≤◌, ◌+◌, ◌-◌, [], ◌∷◌, length, take, drop, get_or, ℕ, pos, min};
ghost use Rattle.std.specs.Prelude.{IfSome, IfOk, MatchOption, MatchResult, Ok, Err};
ghost use Rattle.meaning.specs.Texts.{is_gap, without_cr, from_value, after_line, after_word, first_word};
ghost use Rattle.meaning.specs.Texts.{unsigned_number, signed_number, truth_letter, truth_word, read_value};
ghost use Rattle.tree.specs.Widths.{bits_of};
ghost use Rattle.tree.specs.declared.width.Width.TheVariants.{Wide};
ghost use Rattle.machine.specs.Reading.{Spells, SpellsNumber};

use tree::{Fault, Value};

// One more than the largest number of an INTEGER variable of 64 bits has in size.
const BEYOND: u64 = 9223372036854775809;

/// The byte at a place of the input, and the place of the next one. A CR just before an LF is dropped.
#[tactic(auto, using(crate::proofs::InputLaws::byte_laws))]
pub fn byte_at(input: &[u8], at: usize) -> Option<(u8, usize)>
    ensures byte { MatchOption result (without_cr (drop at input.now) ≡ [])
        (λ found. without_cr (drop at input.now) ≡ found.0 ∷ without_cr (drop found.1 input.now)) }
    ensures within { IfSome result (λ found. (at < found.1) × (found.1 ≤ length input.now)) }
    ensures plain { IfSome result (λ found. found.0 ≢ 10 → (found.1 ≡ at + 1) × (found.0 ≡ get_or input.now at 0)) }
{
    if at >= input.len() {
        return None;
    }
    let byte = input[at];
    if byte == b'\r' && at + 1 < input.len() && input[at + 1] == b'\n' {
        return Some((b'\n', at + 2));
    }
    Some((byte, at + 1))
}

fn is_gap(byte: u8) -> bool
    ensures { result ≡ is_gap byte }
{
    matches!(byte, b' ' | b'\t' | b'\n')
}

/// The place of the next value. Between two values stands at most one comma, and before the first one of a READ none:
/// `comma` says whether one may still come.
#[tactic(auto, using(crate::proofs::InputLaws::value_laws))]
pub fn value_place(input: &[u8], start: usize, may_have_comma: bool) -> Result<usize, Fault>
    ensures place { MatchResult result
        (λ at. from_value may_have_comma (without_cr (drop start input.now)) ≡ Ok (without_cr (drop at input.now)))
        (λ fault. from_value may_have_comma (without_cr (drop start input.now)) ≡ Err fault) }
    ensures within { IfOk result (λ at. (start ≤ at) × (at < length input.now)) }
{
    let mut at = start;
    let mut comma = may_have_comma;
    while let Some((byte, next)) = byte_at(input, at) {
        if byte == b',' {
            if !comma {
                return Err(Fault::InputForm);
            }
            comma = false;
        } else if !is_gap(byte) {
            return Ok(at);
        }
        at = next;
    }
    Err(Fault::InputEnd)
}

/// The place of the separator after a value, or the end of the input.
#[tactic(auto, using(crate::proofs::InputLaws::word_laws))]
pub fn word_end(input: &[u8], start: usize) -> usize
    requires { start ≤ length input.now }
    ensures after { after_word (without_cr (drop start input.now)) ≡ without_cr (drop result input.now) }
    ensures word { first_word (without_cr (drop start input.now)) ≡ take (result - start) (drop start input.now) }
    ensures within { (start ≤ result) × (result ≤ length input.now) }
{
    let mut at = start;
    while let Some((byte, next)) = byte_at(input, at) {
        if is_gap(byte) || byte == b',' {
            return at;
        }
        at = next;
    }
    at
}

/// The place after the line's end.
#[tactic(auto, using(crate::proofs::InputLaws::line_laws))]
pub fn line_end(input: &[u8], start: usize) -> usize
    ensures { after_line (without_cr (drop start input.now)) ≡ without_cr (drop result input.now) }
{
    let mut at = start;
    while let Some((byte, next)) = byte_at(input, at) {
        at = next;
        if byte == b'\n' {
            return at;
        }
    }
    at
}

// The number that digits spell, or a number beyond the range of INTEGER at each width.
fn digits(word: &[u8]) -> Result<u64, Fault>
    ensures { MatchResult result (λ number. (n : ℕ) × (unsigned_number word.now ≡ Ok (pos n))
        × (number ≡ min n 9223372036854775809)) (λ fault. unsigned_number word.now ≡ Err fault) }
{
    if word.is_empty() {
        return Err(Fault::InputForm);
    }
    let mut number = 0u64;
    for byte in word {
        if !byte.is_ascii_digit() {
            return Err(Fault::InputForm);
        }
        let longer = u128::from(number) * 10 + u128::from(byte - b'0');
        number = longer.min(u128::from(BEYOND)) as u64;
    }
    Ok(number)
}

fn number(word: &[u8]) -> Result<i128, Fault>
    ensures { MatchResult result (λ number. SpellsNumber (bits_of Wide) word.now number)
        (λ fault. signed_number word.now ≡ Err fault) }
{
    let Some((first, more)) = word.split_first() else {
        return Err(Fault::InputForm);
    };
    if *first == b'+' {
        return Ok(i128::from(digits(more)?));
    }
    if *first == b'-' {
        return Ok(-i128::from(digits(more)?));
    }
    Ok(i128::from(digits(word)?))
}

fn truth_letter(word: &[u8]) -> Result<bool, Fault>
    ensures { result ≡ truth_letter word.now }
{
    let Some((first, more)) = word.split_first() else {
        return Err(Fault::InputForm);
    };
    if more.contains(&b'/') {
        return Err(Fault::InputForm);
    }
    match first {
        b'T' | b't' => Ok(true),
        b'F' | b'f' => Ok(false),
        _ => Err(Fault::InputForm),
    }
}

fn truth(word: &[u8]) -> Result<bool, Fault>
    ensures { result ≡ truth_word word.now }
{
    match word.split_first() {
        None => Err(Fault::InputForm),
        Some((b'.', more)) => truth_letter(more),
        Some(_) => truth_letter(word),
    }
}

/// The value that a word spells for a variable that holds `old`: one of its kind. A number outside 64 bits is one next
/// to their range, and so outside the range of INTEGER at each width.
pub fn read_value(old: Value, word: &[u8]) -> Result<Value, Fault>
    ensures { MatchResult result (λ value. Spells (bits_of Wide) old word.now value)
        (λ fault. read_value old word.now ≡ Err fault) }
{
    match old {
        Value::Int(_) => Ok(Value::Int(number(word)?)),
        Value::Truth(_) => Ok(Value::Truth(truth(word)?)),
    }
}
