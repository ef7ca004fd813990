//! The parts of a program: PROGRAM, IMPLICIT NONE, declarations, executable statements, END.
ghost use Rattle.std.specs.Prelude.{◌≡◌, ◌++◌, List, [], ◌∷◌, IsTrue};
ghost use Rattle.f90_grammar.specs.Blocks as grammar;
ghost use Rattle.f90_grammar.specs.Forms.{Form90};
ghost use Rattle.f90_grammar.specs.Order.{Place90, is_nothing90, is_title, is_end90, is_executable90, is_late90};
ghost use Rattle.f90_grammar.specs.Order.{ends_wrongly};
ghost use Rattle.f90_blocks.specs.places.forms.Places.{IsPlacedOf};
ghost use Rattle.f90_blocks.specs.places.First.{FindsFirst};
ghost use Rattle.f90_statement.specs.Views.{AreOf, IsStatementOf};
ghost use Rattle.f90_blocks.specs.structure.Order.{IsPassed};

use crate::places::forms::Placed;
use f90_statement::Statement;

/// What is known of the statements before a place: whether there are any, whether each is PROGRAM, whether one is
/// executable.
#[derive(Clone, Copy, Debug)]
struct Passed {
    some: bool,
    only_titles: bool,
    executable: bool,
}

fn is_title(statement: &Statement) -> bool
    ensures { (f : Form90) → IsStatementOf statement.now f → result ≡ is_title f }
{
    match statement {
        Statement::Program(_) => true,
        _ => false,
    }
}

fn is_end(statement: &Statement) -> bool
    ensures { (f : Form90) → IsStatementOf statement.now f → result ≡ is_end90 f }
{
    match statement {
        Statement::End => true,
        Statement::EndProgram(_) => true,
        _ => false,
    }
}

fn is_executable(statement: &Statement) -> bool
    ensures { (f : Form90) → IsStatementOf statement.now f → result ≡ is_executable90 f }
{
    match statement {
        Statement::Program(_) => false,
        Statement::ImplicitNone => false,
        Statement::Declare(_, _, _) => false,
        Statement::End => false,
        Statement::EndProgram(_) => false,
        _ => true,
    }
}

impl Passed {
    fn nothing() -> Passed
        ensures { IsPassed result [] }
    {
        Passed {
            some: false,
            only_titles: true,
            executable: false,
        }
    }

    fn more(self, statement: &Statement) -> Passed
        ensures { (before : List grammar.Placed) (p : grammar.Placed) → IsStatementOf statement.now p.form
            → IsPassed self before → IsPassed result (before ++ p ∷ []) }
    {
        let titles = is_title(statement);
        let executable = is_executable(statement);
        Passed {
            some: true,
            only_titles: self.only_titles && titles,
            executable: self.executable || executable,
        }
    }

    // PROGRAM, IMPLICIT NONE or a declaration comes too late.
    fn is_late(self, statement: &Statement) -> bool
        ensures { (before : List grammar.Placed) (f : Form90) → IsStatementOf statement.now f → IsPassed self before
            → result ≡ is_late90 f before }
    {
        match statement {
            Statement::Program(_) => self.some,
            Statement::ImplicitNone => !self.only_titles,
            Statement::Declare(_, _, _) => self.executable,
            _ => false,
        }
    }
}

/// The first PROGRAM, IMPLICIT NONE or declaration that comes too late.
pub fn first_late(text: &[Placed]) -> Option<usize>
    ensures { (ps : List grammar.Placed) → AreOf IsPlacedOf text.now ps
        → FindsFirst ps (λ (p : Place90). IsTrue (is_late90 p.here.form p.before)) result }
{
    let mut passed = Passed::nothing();
    for (i, placed) in text.iter().enumerate() {
        if passed.is_late(&placed.statement) {
            return Some(i);
        }
        passed = passed.more(&placed.statement);
    }
    None
}

fn ends_wrongly(statement: &Statement, is_last: bool) -> bool
    ensures { (f : Form90) (after : List grammar.Placed) → IsStatementOf statement.now f → is_last ≡ is_nothing90 after
        → result ≡ ends_wrongly f after }
{
    let is_end = is_end(statement);
    if is_last { !is_end } else { is_end }
}

/// The first END that isn't the last statement, or the last statement if it isn't END.
pub fn first_wrong_end(text: &[Placed]) -> Option<usize>
    ensures { (ps : List grammar.Placed) → AreOf IsPlacedOf text.now ps
        → FindsFirst ps (λ (p : Place90). IsTrue (ends_wrongly p.here.form p.after)) result }
{
    for (i, placed) in text.iter().enumerate() {
        let is_last = i + 1 == text.len();
        if ends_wrongly(&placed.statement, is_last) {
            return Some(i);
        }
    }
    None
}
