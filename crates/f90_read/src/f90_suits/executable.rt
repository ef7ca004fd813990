//! Which statements are executable.
ghost use Rattle.std.specs.Prelude.{◌≡◌};
ghost use Rattle.f90_grammar.specs.Forms.{Form90};
ghost use Rattle.f90_grammar.specs.Order.{is_executable90};
ghost use Rattle.f90_statement.specs.Views.{IsStatementOf};

use f90_statement::Statement;

/// Whether the statement is executable (ISO/IEC 1539:1991, section 2.1).
pub(crate) fn is_executable(statement: &Statement) -> bool
    ensures { (f : Form90) → IsStatementOf statement.now f → result ≡ is_executable90 f }
{
    match statement {
        Statement::Program(_) => false,
        Statement::ImplicitNone => false,
        Statement::Declare(_, _, _) => false,
        Statement::End => false,
        Statement::EndProgram(_) => false,
        _ => true,
    }
}
