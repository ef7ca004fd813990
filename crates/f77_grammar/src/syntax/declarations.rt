//! What a statement declares.
ghost use Rattle.std.specs.Prelude.{◌≡◌, map};
ghost use Rattle.f77_grammar.specs.program.Text.{is_declaration, is_implicit_none};
ghost use Rattle.f77_grammar.specs.program.Limits.{entities_of, definitions_of};
ghost use Rattle.f77_grammar.specs.syntax.Views.{statement_of, entity_of, constant_of};

use crate::syntax::statements::{Entity, Stmt77};
use tree::{Expr, Name};

impl Stmt77 {
    /// A type statement, DIMENSION or PARAMETER.
    #[tactic(auto, using(crate::proofs::syntax::Equations::statement_equations))]
    pub fn is_declaration(&self) -> bool
        ensures { result ≡ is_declaration (statement_of self.now) }
    {
        match self {
            Stmt77::Declare(..) | Stmt77::Dimension(_) | Stmt77::Constants(_) => true,
            Stmt77::Program(_) | Stmt77::ImplicitNone | Stmt77::Assign(..) | Stmt77::Go(_) => false,
            Stmt77::Test(..) | Stmt77::If(_) | Stmt77::ElseIf(_) | Stmt77::Else => false,
            Stmt77::EndIf | Stmt77::Do(..) | Stmt77::EndDo | Stmt77::Continue => false,
            Stmt77::Stop | Stmt77::Read(_) | Stmt77::Print(_) | Stmt77::End => false,
        }
    }

    /// IMPLICIT NONE.
    #[tactic(auto, using(crate::proofs::syntax::Equations::statement_equations))]
    pub fn is_implicit_none(&self) -> bool
        ensures { result ≡ is_implicit_none (statement_of self.now) }
    {
        match self {
            Stmt77::ImplicitNone => true,
            Stmt77::Program(_) | Stmt77::Declare(..) | Stmt77::Dimension(_) => false,
            Stmt77::Constants(_) | Stmt77::Assign(..) | Stmt77::Go(_) | Stmt77::Test(..) => false,
            Stmt77::If(_) | Stmt77::ElseIf(_) | Stmt77::Else | Stmt77::EndIf => false,
            Stmt77::Do(..) | Stmt77::EndDo | Stmt77::Continue | Stmt77::Stop => false,
            Stmt77::Read(_) | Stmt77::Print(_) | Stmt77::End => false,
        }
    }

    /// The names that a type statement or a DIMENSION has, with their bounds.
    #[tactic(auto, using(crate::proofs::syntax::Equations::statement_equations))]
    pub fn entities(&self) -> &[Entity]
        ensures { map entity_of result.now ≡ entities_of (statement_of self.now) }
    {
        match self {
            Stmt77::Declare(_, entities) => entities.as_slice(),
            Stmt77::Dimension(entities) => entities.as_slice(),
            Stmt77::Program(_) | Stmt77::ImplicitNone | Stmt77::Constants(_) => &[],
            Stmt77::Assign(..) | Stmt77::Go(_) | Stmt77::Test(..) | Stmt77::If(_) => &[],
            Stmt77::ElseIf(_) | Stmt77::Else | Stmt77::EndIf | Stmt77::Do(..) => &[],
            Stmt77::EndDo | Stmt77::Continue | Stmt77::Stop | Stmt77::Read(_) => &[],
            Stmt77::Print(_) | Stmt77::End => &[],
        }
    }

    /// The symbolic constants that a PARAMETER defines.
    #[tactic(auto, using(crate::proofs::syntax::Equations::statement_equations))]
    pub fn definitions(&self) -> &[(Name, Expr)]
        ensures { map constant_of result.now ≡ definitions_of (statement_of self.now) }
    {
        match self {
            Stmt77::Constants(constants) => constants.as_slice(),
            Stmt77::Program(_) | Stmt77::ImplicitNone | Stmt77::Declare(..) => &[],
            Stmt77::Dimension(_) | Stmt77::Assign(..) | Stmt77::Go(_) | Stmt77::Test(..) => &[],
            Stmt77::If(_) | Stmt77::ElseIf(_) | Stmt77::Else | Stmt77::EndIf => &[],
            Stmt77::Do(..) | Stmt77::EndDo | Stmt77::Continue | Stmt77::Stop => &[],
            Stmt77::Read(_) | Stmt77::Print(_) | Stmt77::End => &[],
        }
    }
}
