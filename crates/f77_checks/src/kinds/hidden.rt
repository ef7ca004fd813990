//! Calls that a variable of the function's Fortran 90 name would hide.
ghost use Rattle.std.specs.Prelude.{◌≡◌, map};
ghost use Rattle.std.specs.List.{list_any};
ghost use Rattle.tree.specs.Names.{IsName};
ghost use Rattle.f77_grammar.specs.program.Uses as plain;
ghost use Rattle.f77_grammar.specs.program.Kinds as kinds;
ghost use Rattle.f77_names.specs.UsesView.{plain_use};
ghost use Rattle.f77_checks.specs.kinds.KnownUses.{known_uses};

use crate::kinds::kind_check::KindCheck;
use f77_names::Use;
use tree::{Fun, Name};

impl KindCheck<'_> {
    // A variable has the name that is so spelled.
    fn has_variable(&self, text: &[u8]) -> bool
        ensures { IsName text.now → result ≡ plain.is_variable (known_uses self.now) text.now }
    {
        match Name::read(text) {
            Some(name) => self.is_variable(name),
            None => false,
        }
    }

    // The function is called by another name than Fortran 90 has for it, and that one is a variable's.
    #[tactic(auto, using(crate::proofs::kinds::HiddenLaws::hidden_laws))]
    fn is_hidden(&self, name: Name, function: Fun) -> bool
        ensures { result ≡ kinds.is_hidden_name (known_uses self.now) name (Some function) }
    {
        let spelled = function.spell90().as_bytes();
        name.text() != spelled && self.has_variable(spelled)
    }

    // A function is called that is hidden.
    #[tactic(auto, using(crate::proofs::kinds::HiddenLaws::call_laws))]
    fn calls_hidden(&self, used: &Use) -> bool
        ensures { result ≡ kinds.calls_hidden (known_uses self.now) (plain_use used.now) }
    {
        match self.names.called(used) {
            Some(function) => self.is_hidden(used.name, function),
            None => false,
        }
    }

    /// Whether one of the uses calls a hidden function.
    pub fn call_hidden(&self, uses: &[Use]) -> bool
        ensures { result ≡ list_any (kinds.calls_hidden (known_uses self.now)) (map plain_use uses.now) }
    {
        for used in uses {
            if self.calls_hidden(used) {
                return true;
            }
        }
        false
    }
}
