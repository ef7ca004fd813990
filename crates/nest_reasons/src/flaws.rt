//! What keeps a loop from being in a nest, and loops in its IFs.
ghost use Rattle.std.specs.Prelude.{◌≡◌};
ghost use Rattle.nest_reasons.specs.Flaws.{stands_in_if, loop_in_if};

use crate::marks::Mark;

/// What keeps a loop from being in a nest: it is left, or halts or does input or output; a loop in it stands in an IF
/// or between a GO TO and its label; a bound of it isn't linear; its increment isn't a suitable constant; too many
/// loops stand round it.
#[derive(Clone, Copy, Debug, PartialEq, Eq)]
pub enum Flaw {
    Exit,
    InnerIf,
    Bound,
    Step,
    Deep,
}

impl Mark {
    fn stands_in_if(self) -> bool
        ensures { result ≡ stands_in_if self }
    {
        match self {
            Mark::Halts => false,
            Mark::Jumps(_) => false,
            Mark::Arrives(_) => false,
            Mark::Turns(in_if) => in_if,
        }
    }
}

/// Whether a loop stands in an IF of the body.
pub fn loop_in_if(marks: &[Mark]) -> bool
    ensures { result ≡ loop_in_if marks.now }
{
    marks.iter().any(|mark| mark.stands_in_if())
}
