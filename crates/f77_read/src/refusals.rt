//! Which of two refusals comes first.
ghost use Rattle.std.specs.Prelude.{◌≡◌};
ghost use Rattle.f77_read.specs.Cards as cards;
ghost use Rattle.reading.specs.refusal_order.Answered as answered;

use tree::Refusal;

fn comes_before(a: Refusal, b: Refusal) -> bool
    ensures { result ≡ answered.comes_before a b }
{
    a.number < b.number
        || (a.number == b.number && (a.line < b.line || (a.line == b.line && a.word < b.word)))
}

/// The first of the refusal found before, if there is one, and of another.
pub fn first(found: Option<Refusal>, other: Refusal) -> Refusal
    ensures { result ≡ cards.first_of found other }
{
    match found {
        None => other,
        Some(found) => if comes_before(other, found) {
            other
        } else {
            found
        },
    }
}
