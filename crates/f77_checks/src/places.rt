//! Lines of statements.
ghost use Rattle.std.specs.Prelude.{◌≡◌, Bool};
ghost use Rattle.f77_grammar.specs.program.Text.{Place77};
ghost use Rattle.f77_grammar.specs.syntax.First.{first_index, first_line};
ghost use Rattle.f77_grammar.specs.syntax.Views.{text_of};

use f77_grammar::syntax::Labelled;

/// The line of the statement at a place.
#[tactic(auto, using(crate::proofs::Indices::line_laws))]
pub fn line_at(text: &[Labelled], place: Option<usize>) -> Option<u32>
    ensures { (test : Place77 → Bool) → place ≡ first_index test (text_of text.now)
        → result ≡ first_line test (text_of text.now) }
{
    match place {
        None => None,
        Some(place) => match text.get(place) {
            None => None,
            Some(statement) => Some(statement.line),
        },
    }
}
