//! Statements with their lines and marks.
ghost use Rattle.std.specs.Prelude.{◌≡◌};
ghost use Rattle.f90_grammar.specs.Forms.{Form90};
ghost use Rattle.f90_grammar.specs.Reading.{last_mark};
ghost use Rattle.f90_lines.specs.Views.{statement_seen, statements_seen};
ghost use Rattle.f90_statement.specs.Views.{AreOf, IsStatementOf};
ghost use Rattle.f90_blocks.specs.places.forms.Forms.{IsFormIn};
ghost use Rattle.f90_blocks.specs.places.forms.Places.{IsPlacedNext, Places};

use f90_lines::Statement as Written;
use f90_statement::Statement;
use std::alloc::Global;
use tree::{Mark, Memory, Seq};

/// A statement with its line; the mark that it has taken, if it takes one and one stands before it.
#[derive(Drop)]
pub struct Placed {
    pub line: u32,
    pub mark: Option<Mark>,
    pub statement: Statement,
}

// The last of the marks, or the one before them.
#[tactic(auto, using(crate::proofs::places::OfForms::MarkLaws::marks))]
fn last_of(pending: Option<Mark>, marks: &[Mark]) -> Option<Mark>
    ensures { result ≡ last_mark pending marks.now }
{
    match marks.split_last() {
        Some((mark, _)) => Some(*mark),
        None => pending,
    }
}

// The statement at its place, and the mark behind it.
fn place(written: &Written, pending: Option<Mark>, statement: Statement) -> (Placed, Option<Mark>)
    ensures { (f : Form90) → IsStatementOf statement f
        → IsPlacedNext (statement_seen written.now) pending f result.0 result.1 }
{
    let line = written.line;
    let last = last_of(pending, written.ahead.as_slice());
    if statement.takes_mark() {
        let next = last_of(None, written.within.as_slice());
        let mark = last;
        return (
            Placed {
                line,
                mark,
                statement,
            },
            next,
        );
    }
    let next = last_of(last, written.within.as_slice());
    let mark = None;
    (
        Placed {
            line,
            mark,
            statement,
        },
        next,
    )
}

/// The statements with their lines and marks, where each has a form.
pub fn places(
    alloc: Global,
    statements: &[Written],
    forms: Seq<Option<Statement>>,
) -> Result<Option<Seq<Placed>>, Memory>
    requires { AreOf IsFormIn forms (statements_seen statements.now) }
    ensures { Places (statements_seen statements.now) result }
{
    let mut left = forms.into_vec();
    left.reverse();
    let mut placed = Seq::new(alloc);
    let mut pending = None;
    'placing: for written in statements {
        match left.pop() {
            Some(Some(statement)) => {
                let (next, mark) = place(written, pending, statement);
                placed.push(next)?;
                pending = mark;
            }
            Some(None) => return Ok(None),
            None => return Ok(None),
        }
    }
    Ok(Some(placed))
}
