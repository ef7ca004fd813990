//! Names declared twice or as two things, and names that stand where what they are can't (ANSI X3.9-1978, sections
//! 4.1.2, 5.1, 6.7, 8.1, 8.4, 8.6 and 18.2).
ghost use Rattle.std.specs.Prelude.{◌≡◌, ◌&&◌, not, IfOk, map};
ghost use Rattle.std.specs.List.{list_any};
ghost use Rattle.tree.specs.Names.{IsName};
ghost use Rattle.f77_grammar.specs.program.Text.{is_declaration};
ghost use Rattle.f77_grammar.specs.program.Uses as plain;
ghost use Rattle.f77_grammar.specs.program.Declarations.{is_declared_wrongly};
ghost use Rattle.f77_grammar.specs.syntax.First.{first_index};
ghost use Rattle.f77_grammar.specs.syntax.Views.{text_of, statement_of};
ghost use Rattle.f77_names.specs.Seen.{is_again_by, bears_title_by, suits_list_by, is_misused_by, is_misused_use};
ghost use Rattle.f77_names.specs.Seen.{Declares, Passes};
ghost use Rattle.f77_names.specs.NameFacts.{facts_in};
ghost use Rattle.f77_names.specs.UsesView.{role_of, plain_use, listed};

use crate::known_names::KnownNames;
use crate::names::{Facts, Names};
use crate::statement_uses::uses_of;
use crate::uses::{Role, Use};
use f77_grammar::syntax::{Labelled, Stmt77};
use std::alloc::Global;
use tree::{Fun, Memory, Name};

// ---- a name, by what is known of it

impl Facts {
    // It is declared again where it stands so.
    fn is_again(self, role: Role) -> bool
        ensures { result ≡ is_again_by self (role_of role) }
    {
        match role {
            Role::Typed(_) => self.kind.is_some(),
            Role::Bounded(_) => self.dimensions.is_some() || self.constant,
            Role::Defined => self.dimensions.is_some() || self.constant,
            Role::Title => false,
            Role::Valued(_) => false,
            Role::Target(_) => false,
            Role::Counter => false,
        }
    }

    // So many subscripts or arguments suit it.
    fn suits_list(self, name: Name, count: usize) -> bool
        ensures { result ≡ suits_list_by self name count }
    {
        if count == 0 {
            return true;
        }
        if self.is_array() {
            return self.dimensions.unwrap_or(0) == count;
        }
        Fun::read77(name.text()).is_some()
    }

    fn is_misused(self, name: Name, role: Role) -> bool
        ensures { result ≡ is_misused_by self name (role_of role) }
    {
        match role {
            Role::Valued(count) => !self.suits_list(name, count),
            Role::Target(count) => !self.suits_list(name, count) || self.constant,
            Role::Title => false,
            Role::Typed(_) => false,
            Role::Bounded(_) => false,
            Role::Defined => false,
            Role::Counter => false,
        }
    }
}

// ---- uses of names

impl Names {
    fn is_misused(&self, used: &Use) -> bool
        ensures { result ≡ is_misused_use self.now (plain_use used.now) }
    {
        self.facts(used.name).is_misused(used.name, used.role)
    }

    fn has_misused(&self, uses: &[Use]) -> bool
        ensures { result ≡ list_any (is_misused_use self.now) (map plain_use uses.now) }
    {
        for used in uses {
            if self.is_misused(used) {
                return true;
            }
        }
        false
    }

    // In an executable statement with these uses, a name doesn't suit its list, or a symbolic constant is assigned.
    fn has_misused_name(&self, statement: &Stmt77, uses: &[Use]) -> bool
        ensures { result ≡ (not (is_declaration (statement_of statement.now))
            && list_any (is_misused_use self.now) (map plain_use uses.now)) }
    {
        !statement.is_declaration() && self.has_misused(uses)
    }

    // The program's name is so spelled.
    fn has_title(&self, text: &[u8]) -> bool
        ensures { IsName text.now → result ≡ (facts_in self.now text.now).title }
    {
        match Name::read(text) {
            Some(name) => self.facts(name).title,
            None => false,
        }
    }

    // The program's name stands as another name, or Fortran 90 spells a function so that is called; `names` are those
    // of the whole program.
    #[tactic(auto, using(crate::proofs::TitleLaws::title_laws))]
    fn bears_title(&self, names: &Names, used: &Use) -> bool
        ensures { result ≡ bears_title_by self.now names.now (plain_use used.now) }
    {
        if used.role.is_title() {
            return false;
        }
        if self.facts(used.name).title {
            return true;
        }
        match names.called(used) {
            Some(function) => self.has_title(function.spell90().as_bytes()),
            None => false,
        }
    }

    fn bear_title(&self, names: &Names, uses: &[Use]) -> bool
        ensures { result ≡ list_any (bears_title_by self.now names.now) (map plain_use uses.now) }
    {
        for used in uses {
            if self.bears_title(names, used) {
                return true;
            }
        }
        false
    }

    // One of the names is declared again; where none is, they are all noted.
    fn declares_again(&mut self, uses: &[Use]) -> Result<bool, Memory>
        ensures { IfOk result (Declares self.old self.new (map plain_use uses.now)) }
    {
        for used in uses {
            if self.facts(used.name).is_again(used.role) {
                return Ok(true);
            }
            self.note(used.name, used.role)?;
        }
        Ok(false)
    }

    // The statement is wrong, where `self` has the names of the statements before it and `names` those of the whole
    // program. Where it isn't, its names are noted.
    fn is_wrong(&mut self, alloc: Global, names: &Names, statement: &Stmt77) -> Result<bool, Memory>
        ensures { IfOk result (Passes names.now self.old self.new (statement_of statement.now)) }
    {
        let here = uses_of(alloc, statement)?;
        let uses = here.as_slice();
        if names.has_misused_name(statement, uses) {
            return Ok(true);
        }
        if self.bear_title(names, uses) {
            return Ok(true);
        }
        if self.has_unknown_constant(alloc, statement)? {
            return Ok(true);
        }
        self.declares_again(uses)
    }
}

/// The place of the first statement that declares a name again or as two things, has the program's name as another
/// name, defines by a name that isn't defined before it, or has a name that doesn't suit what it is declared as.
pub fn wrong_declaration(
    alloc: Global,
    text: &[Labelled],
    known: &KnownNames,
) -> Result<Option<usize>, Memory>
    requires { listed known.now.uses ≡ plain.uses_in_text (text_of text.now) }
    ensures { IfOk result (λ place. place ≡ first_index (is_declared_wrongly (plain.uses_in_text (text_of text.now)))
        (text_of text.now)) }
{
    let mut before = Names::new(alloc);
    for (i, statement) in text.iter().enumerate() {
        if before.is_wrong(alloc, &known.names, &statement.statement)? {
            return Ok(Some(i));
        }
    }
    Ok(None)
}
