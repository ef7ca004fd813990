//! What is known of the statements of a program, found once for all checks and for its tree.
ghost use Rattle.std.specs.Prelude.{◌≡◌, IfOk};
ghost use Rattle.f77_grammar.specs.syntax.Views.{text_of};
ghost use Rattle.f77_checks.specs.Known.{IsKnownOf};

use f77_grammar::syntax::Labelled;
use f77_names::KnownNames;
use f77_names::constants::{Constants, constants_of};
use f77_structure::{LabelPlaces, label_ends};
use std::alloc::Global;
use tree::{Memory, Width};

/// The names of a program, the places where labels end loops, and the values of its symbolic constants.
#[derive(Drop)]
pub struct Known {
    pub names: KnownNames,
    pub ends: LabelPlaces,
    pub constants: Constants,
}

impl Known {
    /// What these statements say, with INTEGER of this width.
    pub fn of_text(alloc: Global, text: &[Labelled], width: Width) -> Result<Known, Memory>
        ensures known { IfOk result (λ known. IsKnownOf known (text_of text.now)) }
        ensures width { IfOk result (λ known. known.constants.width ≡ width) }
    {
        let names = KnownNames::of_text(alloc, text)?;
        let ends = label_ends(alloc, text)?;
        let constants = constants_of(alloc, text, width)?;
        Ok(Known {
            names,
            ends,
            constants,
        })
    }
}
