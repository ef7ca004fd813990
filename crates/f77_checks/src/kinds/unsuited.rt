//! The check of a program's kinds.
ghost use Rattle.std.specs.Prelude.{◌≡◌, ◌||◌, IfOk, not};
ghost use Rattle.std.specs.List.{list_any};
ghost use Rattle.f77_grammar.specs.program.Uses as plain;
ghost use Rattle.f77_grammar.specs.program.Kinds as kinds;
ghost use Rattle.f77_grammar.specs.syntax.First.{first_index};
ghost use Rattle.f77_grammar.specs.syntax.Views.{statement_of, text_of};
ghost use Rattle.f77_names.specs.UsesView.{listed};
ghost use Rattle.f77_checks.specs.kinds.KnownUses.{known_uses};

use crate::kinds::kind_check::KindCheck;
use f77_grammar::syntax::{Labelled, Stmt77};
use f77_names::{KnownNames, uses_of};
use std::alloc::Global;
use tree::Memory;

impl KindCheck<'_> {
    // The statement calls a function that is hidden.
    fn calls_hidden_in(&self, alloc: Global, statement: &Stmt77) -> Result<bool, Memory>
        ensures { IfOk result (λ hidden. hidden ≡ list_any (kinds.calls_hidden (known_uses self.now))
            (plain.uses77_of (statement_of statement.now))) }
    {
        let uses = uses_of(alloc, statement)?;
        Ok(self.call_hidden(uses.as_slice()))
    }

    // A kind in the statement doesn't suit, or it calls a function that is hidden.
    fn is_unsuited(&self, alloc: Global, statement: &Stmt77) -> Result<bool, Memory>
        ensures { IfOk result (λ unsuited. unsuited
            ≡ (not (kinds.suits (known_uses self.now) (statement_of statement.now))
            || list_any (kinds.calls_hidden (known_uses self.now)) (plain.uses77_of (statement_of statement.now)))) }
    {
        if !self.suits(statement) {
            return Ok(true);
        }
        self.calls_hidden_in(alloc, statement)
    }
}

/// The place of the first statement in which a kind doesn't suit, or a function is called whose Fortran 90 name a
/// variable hides.
pub fn unsuited_kind(
    alloc: Global,
    text: &[Labelled],
    known: &KnownNames,
) -> Result<Option<usize>, Memory>
    requires { listed known.now.uses ≡ plain.uses_in_text (text_of text.now) }
    ensures { IfOk result (λ place. place
        ≡ first_index (kinds.has_unsuited_kind (plain.uses_in_text (text_of text.now))) (text_of text.now)) }
{
    let check = KindCheck { names: known };
    for (i, statement) in text.iter().enumerate() {
        if check.is_unsuited(alloc, &statement.statement)? {
            return Ok(Some(i));
        }
    }
    Ok(None)
}
