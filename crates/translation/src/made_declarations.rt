//! Declarations of made names among those of a program.
ghost use Rattle.translation.specs.made_declarations.Laws.{WithMadeNames};

mod declaring;
mod names;

pub use declaring::with_declarations;
pub use names::MadeName;
pub(crate) use names::names_made;

/// Made names, each put at its place, keep declarations in order.
pub fn with_made_names()
    ensures { WithMadeNames }
{}
