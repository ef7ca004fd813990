//! Names and labels at the front of a text.
ghost use Rattle.std.specs.Prelude.{◌≡◌, ℕ, List, IfSome};
ghost use Rattle.f77_grammar.specs.expressions.Squeezing as squeezing;
ghost use Rattle.f77_expressions.specs.Symbols.{symbols_of};
ghost use Rattle.f77_words.specs.keywords.Fronts.{IsLabelled, GivesLabel, IsNamed, GivesRest, IsLabelList, GivesLabels};

use crate::keywords::conditions::begins_with_letter;
use f77_expressions::{Symbol, next_digit, next_letter_or_digit, strip};

const LABEL: usize = 5;

/// The number of the label at the front, and what follows it. A label is 1 to 5 digits, as many as there are: none
/// where six follow one another.
pub fn label(text: &[Symbol]) -> Option<(u32, &[Symbol])>
    ensures found { IfSome result (λ r. IsLabelled (symbols_of text.now) r.0 (symbols_of r.1.now)) }
    ensures only { (number : ℕ) (rest : List squeezing.Symbol77) → IsLabelled (symbols_of text.now) number rest
        → GivesLabel result number rest }
{
    let mut rest = text;
    let mut number: u32 = 0;
    let mut digits: usize = 0;
    'digits: while let Some((digit, tail)) = next_digit(rest) {
        if digits == LABEL {
            return None;
        }
        number = 10 * number + u32::from(digit - b'0');
        digits += 1;
        rest = tail;
    }
    if digits == 0 {
        return None;
    }
    Some((number, rest))
}

const NAME: usize = 6;

// What follows the name at the front: 1 to 6 letters and digits, as many as there are, the first a letter.
pub(crate) fn behind_name(text: &[Symbol]) -> Option<&[Symbol]>
    ensures found { IfSome result (λ r. IsNamed (symbols_of text.now) (symbols_of r.now)) }
    ensures only { (rest : List squeezing.Symbol77) → IsNamed (symbols_of text.now) rest → GivesRest result rest }
{
    if !begins_with_letter(text) {
        return None;
    }
    let mut rest = text;
    let mut len: usize = 0;
    'letters: while let Some((_, tail)) = next_letter_or_digit(rest) {
        if len == NAME {
            return None;
        }
        len += 1;
        rest = tail;
    }
    Some(rest)
}

// How many labels follow the one at the front, with a comma before each, and what follows them all.
pub(crate) fn labels(text: &[Symbol]) -> Option<(usize, &[Symbol])>
    ensures found { IfSome result (λ r. IsLabelList (symbols_of text.now) r.0 (symbols_of r.1.now)) }
    ensures only { (others : ℕ) (rest : List squeezing.Symbol77) → IsLabelList (symbols_of text.now) others rest
        → GivesLabels result others rest }
{
    let (_, mut rest) = label(text)?;
    let mut others: usize = 0;
    'labels: while let Some(tail) = strip(b",", rest) {
        let (_, behind) = label(tail)?;
        others += 1;
        rest = behind;
    }
    Some((others, rest))
}
