//! What the check of kinds knows of a program: its names.
ghost use Rattle.std.specs.Prelude.{◌≡◌};
ghost use Rattle.f77_grammar.specs.program.Uses as plain;
ghost use Rattle.f77_names.specs.NameFacts.{function_of};
ghost use Rattle.f77_checks.specs.kinds.KnownUses.{known_uses};

use f77_names::KnownNames;
use tree::{Fun, Kind, Name};

/// The check of a program's kinds, by its names.
#[derive(Clone, Copy)]
pub struct KindCheck<'a> {
    pub names: &'a KnownNames,
}

impl KindCheck<'_> {
    /// The name is a variable.
    pub fn is_variable(&self, name: Name) -> bool
        ensures { result ≡ plain.is_variable (known_uses self.now) name }
    {
        self.names.is_variable(name)
    }

    /// The name is an array.
    pub fn is_array(&self, name: Name) -> bool
        ensures { result ≡ plain.is_array_name (known_uses self.now) name }
    {
        self.names.is_array(name)
    }

    /// The function that the name names, where no variable or symbolic constant hides it.
    pub fn function(&self, name: Name) -> Option<Fun>
        ensures { result ≡ function_of (known_uses self.now) name }
    {
        self.names.function(name)
    }

    /// The kind of a variable or symbolic constant.
    pub fn kind(&self, name: Name) -> Kind
        ensures { result ≡ plain.kind_of_name (known_uses self.now) name }
    {
        self.names.kind(name)
    }
}
