//! What a statement is to the order and the nesting of statements.
ghost use Rattle.std.specs.Prelude.{◌≡◌};
ghost use Rattle.f77_structure.specs.Forms.{form_of};
ghost use Rattle.f77_grammar.specs.syntax.Views.{statement_of};

use f77_grammar::syntax::Stmt77;

/// The form of a statement: labels are those that it names.
#[derive(Clone, Copy, Debug, PartialEq, Eq)]
pub enum Form {
    /// PROGRAM.
    Title,
    ImplicitNone,
    /// A type statement, DIMENSION or PARAMETER.
    Declaration,
    /// An assignment, CONTINUE, READ or PRINT.
    Action,
    Go(u32),
    Stop,
    LogicalIf,
    If,
    ElseIf,
    Else,
    EndIf,
    Do(Option<u32>),
    EndDo,
    End,
}

impl Form {
    /// What the statement is to the order and the nesting of statements.
    #[tactic(auto, using(f77_grammar::proofs::syntax::Equations::statement_equations))]
    pub fn of(statement: &Stmt77) -> Form
        ensures { result ≡ form_of (statement_of statement.now) }
    {
        match statement {
            Stmt77::Program(_) => Form::Title,
            Stmt77::ImplicitNone => Form::ImplicitNone,
            Stmt77::Declare(..) => Form::Declaration,
            Stmt77::Dimension(_) => Form::Declaration,
            Stmt77::Constants(_) => Form::Declaration,
            Stmt77::Assign(..) => Form::Action,
            Stmt77::Go(label) => Form::Go(*label),
            Stmt77::Test(..) => Form::LogicalIf,
            Stmt77::If(_) => Form::If,
            Stmt77::ElseIf(_) => Form::ElseIf,
            Stmt77::Else => Form::Else,
            Stmt77::EndIf => Form::EndIf,
            Stmt77::Do(label, ..) => Form::Do(*label),
            Stmt77::EndDo => Form::EndDo,
            Stmt77::Continue => Form::Action,
            Stmt77::Stop => Form::Stop,
            Stmt77::Read(_) => Form::Action,
            Stmt77::Print(_) => Form::Action,
            Stmt77::End => Form::End,
        }
    }
}
