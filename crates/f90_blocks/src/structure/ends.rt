//! Blocks that stay open.
ghost use Rattle.std.specs.Prelude.{◌≡◌, ◌+◌, ◌^◌, ◌<◌, ◌≤◌, List, [], ◌∷◌, Some, IsTrue, if◌then◌else◌};
ghost use Rattle.f90_grammar.specs.Blocks as grammar;
ghost use Rattle.f90_grammar.specs.Forms.{Form90};
ghost use Rattle.f90_grammar.specs.Order.{Place90, stays_open90};
ghost use Rattle.f90_blocks.specs.places.forms.Places.{IsPlacedOf};
ghost use Rattle.f90_blocks.specs.places.First.{FindsFirst};
ghost use Rattle.f90_statement.specs.Views.{AreOf, IsStatementOf};
ghost use Rattle.f90_blocks.specs.structure.Ends.{AreFree};

use crate::places::forms::Placed;
use f90_statement::Statement;

/// How many END IFs behind a place are left for block IFs before it, and how many END DOs for loops.
#[derive(Clone, Copy, Debug)]
struct Ends {
    ifs: usize,
    loops: usize,
}

impl Ends {
    // The statement in front of those: an END is one more, and a block takes one.
    fn before(self, statement: &Statement) -> Ends
        requires ifs { self.ifs + 1 < 2 ^ 64 }
        requires loops { self.loops + 1 < 2 ^ 64 }
        ensures few_ifs { result.ifs ≤ self.ifs + 1 }
        ensures few_loops { result.loops ≤ self.loops + 1 }
        ensures free { (after : List grammar.Placed) (p : grammar.Placed) → IsStatementOf statement.now p.form
            → AreFree self after → AreFree result (p ∷ after) }
    {
        let Ends { ifs, loops } = self;
        match statement {
            Statement::EndIf => Ends {
                ifs: ifs + 1,
                loops,
            },
            Statement::If(_) => Ends {
                ifs: ifs.saturating_sub(1),
                loops,
            },
            Statement::EndDo => Ends {
                ifs,
                loops: loops + 1,
            },
            Statement::Do(_, _) => Ends {
                ifs,
                loops: loops.saturating_sub(1),
            },
            _ => self,
        }
    }

    fn leave_open(self, statement: &Statement) -> bool
        ensures { (f : Form90) (after : List grammar.Placed) → IsStatementOf statement.now f → AreFree self after
            → result ≡ stays_open90 f after }
    {
        match statement {
            Statement::If(_) => self.ifs == 0,
            Statement::Do(_, _) => self.loops == 0,
            _ => false,
        }
    }
}

// A place that is looked for, in front of a later one.
fn here_if(here: bool, place: usize, later: Option<usize>) -> Option<usize>
    ensures { result ≡ (if here then Some place else later) }
{
    if here { Some(place) } else { later }
}

/// The first block IF without an END IF, or loop without an END DO.
pub fn first_open(text: &[Placed]) -> Option<usize>
    ensures { (ps : List grammar.Placed) → AreOf IsPlacedOf text.now ps
        → FindsFirst ps (λ (p : Place90). IsTrue (stays_open90 p.here.form p.after)) result }
{
    let mut found = None;
    let mut ends = Ends { ifs: 0, loops: 0 };
    let mut i = text.len();
    while i > 0 {
        i -= 1;
        let statement = &text[i].statement;
        found = here_if(ends.leave_open(statement), i, found);
        ends = ends.before(statement);
    }
    found
}
