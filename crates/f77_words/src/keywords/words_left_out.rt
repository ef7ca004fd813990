//! Words that are left out of the profile.
ghost use Rattle.std.specs.Prelude.{◌≡◌, ℕ, List, Some, IfSome, IsTrue, ◌↔◌, codes};
ghost use Rattle.f77_grammar.specs.expressions.Squeezing as squeezing;
ghost use Rattle.f77_grammar.specs.expressions.Spelling.{chars77};
ghost use Rattle.f77_grammar.specs.statements.Recognition.{IsConditional, HasWord, words_left_out};
ghost use Rattle.f77_expressions.specs.Symbols.{symbols_of};
ghost use Rattle.f77_words.specs.keywords.Listed.{begins_with, listed, declarations, procedures, files_and_loops};

use crate::keywords::conditions::conditional;
use crate::keywords::forms_left_out::form_left_out;
use crate::keywords::outside::Outside;
use f77_expressions::{Symbol, strip};

fn begins_with(word: &[u8], text: &[Symbol]) -> bool
    ensures { result ≡ begins_with word.now (symbols_of text.now) }
{
    strip(word, text).is_some()
}

// The number of the first of the words with which the text begins.
macro_rules! first_listed {
    ($text:expr; $($word:literal => $number:literal,)*) => {{
        $(
            if begins_with($word, $text) {
                return Some($number);
            }
        )*
        None
    }};
}

fn declaration(text: &[Symbol]) -> Option<u8>
    ensures { result ≡ listed declarations (symbols_of text.now) }
{
    first_listed!(text;
        b"REAL" => 1,
        b"DOUBLEPRECISION" => 2,
        b"COMPLEX" => 3,
        b"CHARACTER" => 4,
        b"EQUIVALENCE" => 5,
        b"COMMON" => 6,
        b"DATA" => 7,
        b"SAVE" => 8,
        b"IMPLICIT" => 9,
        b"ENTRY" => 10,
        b"BLOCKDATA" => 11,
        b"FORMAT" => 12,
    )
}

fn procedure(text: &[Symbol]) -> Option<u8>
    ensures { result ≡ listed procedures (symbols_of text.now) }
{
    first_listed!(text;
        b"FUNCTION" => 13,
        b"INTEGERFUNCTION" => 14,
        b"LOGICALFUNCTION" => 15,
        b"SUBROUTINE" => 16,
        b"CALL" => 17,
        b"RETURN" => 18,
        b"ASSIGN" => 19,
        b"PAUSE" => 20,
        b"EXTERNAL" => 21,
        b"INTRINSIC" => 22,
    )
}

fn file_or_loop(text: &[Symbol]) -> Option<u8>
    ensures { result ≡ listed files_and_loops (symbols_of text.now) }
{
    first_listed!(text;
        b"OPEN" => 23,
        b"CLOSE" => 24,
        b"INQUIRE" => 25,
        b"REWIND" => 26,
        b"BACKSPACE" => 27,
        b"ENDFILE" => 28,
        b"INCLUDE" => 29,
        b"DOWHILE" => 30,
    )
}

fn listed_word(text: &[Symbol]) -> Option<u8>
    ensures { result ≡ listed words_left_out (symbols_of text.now) }
{
    match declaration(text) {
        Some(number) => Some(number),
        None => match procedure(text) {
            Some(number) => Some(number),
            None => file_or_loop(text),
        },
    }
}

// The number of the word or form, where the text is no block IF or logical IF.
fn keyword_left_out(text: &[Symbol]) -> Option<u8>
    requires { (condition rest : List squeezing.Symbol77) → IsConditional (symbols_of text.now) condition rest → ⊥ }
    ensures found { IfSome result (λ word. HasWord (symbols_of text.now) word) }
    ensures only { (word : ℕ) → HasWord (symbols_of text.now) word → result ≡ Some word }
{
    if Outside::of(text).equals {
        return None;
    }
    // IMPLICIT NONE is of the profile.
    if begins_with(b"IMPLICITNONE", text) {
        return None;
    }
    match listed_word(text) {
        Some(number) => Some(number),
        None => form_left_out(text),
    }
}

/// Whether the text is the word THEN.
pub fn is_then(text: &[Symbol]) -> bool
    ensures { IsTrue result ↔ (symbols_of text.now ≡ chars77 (codes "THEN")) }
{
    match strip(b"THEN", text) {
        Some(rest) => rest.is_empty(),
        None => false,
    }
}

/// The number of the word that is left out of the profile: the one with which the text begins, or that its form has. Of
/// a logical IF it's that of its inner statement.
pub fn word_left_out(text: &[Symbol]) -> Option<u8>
    ensures found { IfSome result (λ word. HasWord (symbols_of text.now) word) }
    ensures only { (word : ℕ) → HasWord (symbols_of text.now) word → result ≡ Some word }
{
    let mut rest = text;
    'inner: while let Some((_, inner)) = conditional(rest) {
        if is_then(inner) {
            return None;
        }
        rest = inner;
    }
    keyword_left_out(rest)
}
