//! The lines of statements.
ghost use Rattle.std.specs.Prelude.{◌≡◌, Some, List, length};
ghost use Rattle.f90_grammar.specs.Blocks as grammar;
ghost use Rattle.f90_grammar.specs.Order.{Place90, IsPlaceIn};
ghost use Rattle.f90_statement.specs.Views.{AreOf};
ghost use Rattle.f90_blocks.specs.places.forms.Places.{IsPlacedOf};

use crate::places::forms::Placed;

/// The line of the statement before which so many stand, if there is one.
pub fn line_at(text: &[Placed], place: usize) -> Option<u32>
    ensures { (ps : List grammar.Placed) (p : Place90) → AreOf IsPlacedOf text.now ps → IsPlaceIn ps p
        → length p.before ≡ place → result ≡ Some p.here.line }
{
    let placed = text.get(place)?;
    Some(placed.line)
}
