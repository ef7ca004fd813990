//! The first statement of a text at which something holds.
ghost use Rattle.std.specs.Prelude.{IsTrue, List};
ghost use Rattle.f90_grammar.specs.Blocks as grammar;
ghost use Rattle.f90_grammar.specs.Contents.{has_wide_literal_in, has_deep_expression};
ghost use Rattle.f90_statement.specs.Views.{AreOf};
ghost use Rattle.f90_blocks.specs.places.forms.Places.{IsPlacedOf};
ghost use Rattle.f90_blocks.specs.places.First.{FindsFirst};

use crate::places::forms::Placed;

/// How many statements stand before the first that has a literal above 2^127-1, if one has.
pub fn first_wide(text: &[Placed]) -> Option<usize>
    ensures { (ps : List grammar.Placed) → AreOf IsPlacedOf text.now ps
        → FindsFirst ps (λ p. IsTrue (has_wide_literal_in p.here.form)) result }
{
    for (place, placed) in text.iter().enumerate() {
        if placed.statement.has_wide_literal() {
            return Some(place);
        }
    }
    None
}

/// How many statements stand before the first that has an expression more than 1,000 deep, if one has.
pub fn first_deep(text: &[Placed]) -> Option<usize>
    ensures { (ps : List grammar.Placed) → AreOf IsPlacedOf text.now ps
        → FindsFirst ps (λ p. IsTrue (has_deep_expression p.here.form)) result }
{
    for (place, placed) in text.iter().enumerate() {
        if placed.statement.has_deep_expression() {
            return Some(place);
        }
    }
    None
}
