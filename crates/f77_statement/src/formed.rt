//! A statement that has a form.
ghost use Rattle.std.specs.Prelude.{◌≡◌, []};
ghost use Rattle.f77_grammar.specs.syntax.Views as view;
ghost use Rattle.f77_grammar.specs.statements.Forms.{Form77, statement_of, form_words, form_depth};
ghost use Rattle.f77_statement.specs.Parts.{IsFormedOf};

use f77_grammar::syntax::Stmt77;

/// A statement that has a form, before its literals and its depth are looked at: whether a literal of it is above
/// 2^127-1, and its depth, which is counted up to the first that is too deep.
#[derive(Drop)]
pub(crate) struct Formed {
    pub statement: Stmt77,
    pub wide: bool,
    pub depth: u16,
}

impl Formed {
    /// A statement without expressions.
    pub(crate) fn bare(statement: Stmt77) -> Formed
        ensures { (f : Form77) → view.statement_of statement ≡ statement_of f → form_words f ≡ [] → form_depth f ≡ 0
            → IsFormedOf result f }
    {
        Formed {
            statement,
            wide: false,
            depth: 0,
        }
    }
}
