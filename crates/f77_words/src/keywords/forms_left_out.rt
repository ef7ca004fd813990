//! Forms that are left out of the profile: arithmetic IF, computed GO TO and assigned GO TO (ANSI X3.9-1978, sections
//! 11.2 to 11.4).
ghost use Rattle.std.specs.Prelude.{◌≡◌, ℕ, Some, IfSome, IsTrue, ◌↔◌};
ghost use Rattle.f77_grammar.specs.statements.Recognition.{IsArithmeticIf, IsComputedGoTo, IsAssignedGoTo};
ghost use Rattle.f77_expressions.specs.Symbols.{symbols_of};
ghost use Rattle.f77_words.specs.keywords.FormsLeftOut.{AreThreeLabels, without_comma, AreEnclosed, IsFormLeftOut};

use crate::keywords::fronts::{behind_name, labels};
use crate::keywords::parentheses::cut_at_close;
use f77_expressions::{Symbol, strip};

fn are_three_labels(text: &[Symbol]) -> bool
    ensures { IsTrue result ↔ AreThreeLabels (symbols_of text.now) }
{
    match labels(text) {
        Some((others, rest)) => others == 2 && rest.is_empty(),
        None => false,
    }
}

fn is_arithmetic_if(text: &[Symbol]) -> bool
    ensures { IsTrue result ↔ IsArithmeticIf (symbols_of text.now) }
{
    let Some(opened) = strip(b"IF(", text) else {
        return false;
    };
    let Some((condition, rest)) = cut_at_close(opened) else {
        return false;
    };
    !condition.is_empty() && are_three_labels(rest)
}

/// What follows the comma at the front, or the text where there is none.
pub fn behind_comma(text: &[Symbol]) -> &[Symbol]
    ensures { symbols_of result.now ≡ without_comma (symbols_of text.now) }
{
    match strip(b",", text) {
        Some(rest) => rest,
        None => text,
    }
}

fn is_computed_go_to(text: &[Symbol]) -> bool
    ensures { IsTrue result ↔ IsComputedGoTo (symbols_of text.now) }
{
    let Some(list) = strip(b"GOTO(", text) else {
        return false;
    };
    let Some((_, enclosed)) = labels(list) else {
        return false;
    };
    let Some(rest) = strip(b")", enclosed) else {
        return false;
    };
    !behind_comma(rest).is_empty()
}

// The text is labels in parentheses.
fn are_enclosed(text: &[Symbol]) -> bool
    ensures { IsTrue result ↔ AreEnclosed (symbols_of text.now) }
{
    let Some(list) = strip(b"(", text) else {
        return false;
    };
    let Some((_, enclosed)) = labels(list) else {
        return false;
    };
    let Some(rest) = strip(b")", enclosed) else {
        return false;
    };
    rest.is_empty()
}

fn is_assigned_go_to(text: &[Symbol]) -> bool
    ensures { IsTrue result ↔ IsAssignedGoTo (symbols_of text.now) }
{
    let Some(assigned) = strip(b"GOTO", text) else {
        return false;
    };
    let Some(rest) = behind_name(assigned) else {
        return false;
    };
    rest.is_empty() || are_enclosed(behind_comma(rest))
}

// The number of the form, if it is left out.
pub(crate) fn form_left_out(text: &[Symbol]) -> Option<u8>
    ensures found { IfSome result (λ number. IsFormLeftOut (symbols_of text.now) number) }
    ensures only { (number : ℕ) → IsFormLeftOut (symbols_of text.now) number → result ≡ Some number }
{
    if is_arithmetic_if(text) {
        Some(32)
    } else if is_computed_go_to(text) {
        Some(33)
    } else if is_assigned_go_to(text) {
        Some(34)
    } else {
        None
    }
}
