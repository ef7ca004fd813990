//! What is known of the names of a whole program.
ghost use Rattle.std.specs.Prelude.{◌≡◌, IfOk};
ghost use Rattle.f77_grammar.specs.program.Uses as plain;
ghost use Rattle.f77_grammar.specs.syntax.Views.{text_of};
ghost use Rattle.f77_names.specs.NameFacts.{AreNamesOf, function_of, called_of};
ghost use Rattle.f77_names.specs.UsesView.{listed, plain_use};

use crate::names::{Names, names_of};
use crate::statement_uses::uses_in_text;
use crate::uses::{Use, Uses};
use f77_grammar::syntax::Labelled;
use std::alloc::Global;
use tree::{Fun, Kind, Memory, Name};

/// The names of a program.
///
/// What a name is comes from the table `names`. The contracts speak of `uses`, all uses of names in the program, from
/// which the table was made.
#[derive(Drop)]
pub struct KnownNames {
    pub names: Names,
    pub uses: Uses,
    ghost known: { AreNamesOf names (listed uses) },
}

impl KnownNames {
    /// The names of this program.
    pub fn of_text(alloc: Global, text: &[Labelled]) -> Result<KnownNames, Memory>
        ensures { IfOk result (λ known. listed known.uses ≡ plain.uses_in_text (text_of text.now)) }
    {
        let uses = uses_in_text(alloc, text)?;
        let names = names_of(alloc, uses.as_slice())?;
        Ok(KnownNames { names, uses })
    }

    /// The name is a variable.
    pub fn is_variable(&self, name: Name) -> bool
        ensures { result ≡ plain.is_variable (listed self.now.uses) name }
    {
        self.names.is_variable(name)
    }

    /// The name is an array.
    pub fn is_array(&self, name: Name) -> bool
        ensures { result ≡ plain.is_array_name (listed self.now.uses) name }
    {
        self.names.is_array(name)
    }

    /// The name is a symbolic constant.
    pub fn is_constant(&self, name: Name) -> bool
        ensures { result ≡ plain.is_constant_name (listed self.now.uses) name }
    {
        self.names.is_constant(name)
    }

    /// The function that the name names, where no variable or symbolic constant hides it.
    pub fn function(&self, name: Name) -> Option<Fun>
        ensures { result ≡ function_of (listed self.now.uses) name }
    {
        self.names.function(name)
    }

    /// The function that is called where the name stands so.
    pub fn called(&self, used: &Use) -> Option<Fun>
        ensures { result ≡ called_of (listed self.now.uses) (plain_use used.now) }
    {
        self.names.called(used)
    }

    /// The kind of a variable or symbolic constant.
    pub fn kind(&self, name: Name) -> Kind
        ensures { result ≡ plain.kind_of_name (listed self.now.uses) name }
    {
        self.names.kind(name)
    }
}
