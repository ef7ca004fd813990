//! How many variables and symbolic constants a program has.
ghost use Rattle.std.specs.Prelude.{◌≡◌, ◌∷◌, [], IfOk, OnOk, nat_lt, map, length};
ghost use Rattle.f77_grammar.specs.program.Uses as plain;
ghost use Rattle.f77_grammar.specs.program.Limits.{has_many_names};
ghost use Rattle.f77_grammar.specs.syntax.First.{first_index};
ghost use Rattle.f77_grammar.specs.syntax.Views.{text_of};
ghost use Rattle.f77_names.specs.Counted.{Holds, Counts, is_counted_by};
ghost use Rattle.f77_names.specs.UsesView.{plain_use, listed};

use crate::known_names::KnownNames;
use crate::names::{Facts, Names};
use crate::statement_uses::uses_of;
use crate::uses::Use;
use f77_grammar::syntax::Labelled;
use indexmap::IndexSet;
use std::alloc::Global;
use tree::{Memory, Name, PROGRAM_NAMES_77};

// The variables and symbolic constants so far.
#[derive(Drop)]
struct Counted {
    names: IndexSet<Name>,
}

impl Facts {
    fn is_counted(self) -> bool
        ensures { result ≡ is_counted_by self }
    {
        self.is_variable() || self.constant
    }
}

impl Counted {
    fn new(alloc: Global) -> Counted
        ensures { Holds result [] }
    {
        Counted {
            names: IndexSet::new(alloc),
        }
    }

    fn note(&mut self, names: &Names, used: &Use) -> Result<(), Memory>
        ensures { OnOk result (Counts names.now self.old self.new (plain_use used.now ∷ [])) }
    {
        if names.facts(used.name).is_counted() {
            self.names.insert(used.name)?;
        }
        Ok(())
    }

    fn note_all(&mut self, names: &Names, uses: &[Use]) -> Result<(), Memory>
        ensures { OnOk result (Counts names.now self.old self.new (map plain_use uses.now)) }
    {
        for i in (0..uses.len()).rev() {
            self.note(names, &uses[i])?;
        }
        Ok(())
    }

    fn are_many(&self) -> bool
        ensures { result ≡ nat_lt 1000 (length self.now.names.keys) }
    {
        self.names.len() > PROGRAM_NAMES_77
    }
}

/// The place of the first statement up to which a program has more than 1,000 variables and symbolic constants.
pub fn many_names(
    alloc: Global,
    text: &[Labelled],
    known: &KnownNames,
) -> Result<Option<usize>, Memory>
    requires { listed known.now.uses ≡ plain.uses_in_text (text_of text.now) }
    ensures { IfOk result (λ place. place ≡ first_index (has_many_names (plain.uses_in_text (text_of text.now)))
        (text_of text.now)) }
{
    let mut counted = Counted::new(alloc);
    for (i, statement) in text.iter().enumerate() {
        let here = uses_of(alloc, &statement.statement)?;
        counted.note_all(&known.names, here.as_slice())?;
        if counted.are_many() {
            return Ok(Some(i));
        }
    }
    Ok(None)
}
