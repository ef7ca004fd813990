//! The name of the program.
ghost use Rattle.std.specs.Prelude.{◌≡◌, List, IsTrue};
ghost use Rattle.f90_grammar.specs.Blocks as grammar;
ghost use Rattle.f90_grammar.specs.Forms.{Form90};
ghost use Rattle.f90_grammar.specs.Order.{Place90, name_in, title_in_text, bears_program_name, is_misnamed};
ghost use Rattle.f90_blocks.specs.places.forms.Places.{IsPlacedOf};
ghost use Rattle.f90_blocks.specs.places.First.{FindsFirst};
ghost use Rattle.f90_statement.specs.Views.{AreOf, IsStatementOf};

use crate::places::forms::Placed;
use f90_statement::Statement;
use tree::Name;

fn name_in(statement: &Statement) -> Option<Name>
    ensures { (f : Form90) → IsStatementOf statement.now f → result ≡ name_in f }
{
    match statement {
        Statement::Program(name) => Some(*name),
        _ => None,
    }
}

fn title_of(text: &[Placed]) -> Option<Name>
    ensures { (ps : List grammar.Placed) → AreOf IsPlacedOf text.now ps → result ≡ title_in_text ps }
{
    match text.first() {
        Some(placed) => name_in(&placed.statement),
        None => None,
    }
}

fn bears(title: &Option<Name>, name: &Name) -> bool
    ensures { result ≡ bears_program_name title.now name.now }
{
    match title {
        Some(title) => title == name,
        None => false,
    }
}

fn is_misnamed(title: &Option<Name>, statement: &Statement) -> bool
    ensures { (f : Form90) → IsStatementOf statement.now f → result ≡ is_misnamed title.now f }
{
    match statement {
        Statement::EndProgram(Some(name)) => !bears(title, name),
        _ => false,
    }
}

/// The first END PROGRAM with a name that isn't the program's.
pub fn first_misnamed(text: &[Placed]) -> Option<usize>
    ensures { (ps : List grammar.Placed) → AreOf IsPlacedOf text.now ps
        → FindsFirst ps (λ (p : Place90). IsTrue (is_misnamed (title_in_text ps) p.here.form)) result }
{
    let title = title_of(text);
    for (i, placed) in text.iter().enumerate() {
        if is_misnamed(&title, &placed.statement) {
            return Some(i);
        }
    }
    None
}
