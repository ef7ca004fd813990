//! Names without type: where IMPLICIT NONE stands, each variable and symbolic constant needs one (MIL-STD-1753), and
//! elsewhere those that don't begin with I to N would be REAL (ANSI X3.9-1978, section 4.1.2).
ghost use Rattle.std.specs.Prelude.{◌≡◌, IfOk, map};
ghost use Rattle.std.specs.List.{list_any};
ghost use Rattle.meaning.specs.Names.{is_implicit_integer};
ghost use Rattle.f77_grammar.specs.program.Uses as plain;
ghost use Rattle.f77_grammar.specs.program.Declarations.{has_implicit_none, has_name, is_real, lacks_type};
ghost use Rattle.f77_grammar.specs.program.Declarations.{has_real_name, has_untyped_name};
ghost use Rattle.f77_grammar.specs.syntax.First.{first_index};
ghost use Rattle.f77_names.specs.NameFacts.{facts_in, lacks_type_by, is_real_by, is_real_use, is_untyped_use};
ghost use Rattle.f77_names.specs.UsesView.{plain_use, listed};
ghost use Rattle.f77_grammar.specs.syntax.Views.{text_of};

use crate::known_names::KnownNames;
use crate::names::{Facts, Names};
use crate::statement_uses::uses_of;
use crate::uses::{Role, Use};
use f77_grammar::syntax::Labelled;
use std::alloc::Global;
use tree::{Memory, Name};

// A name that is INTEGER without a type statement.
fn is_implicit_integer(name: Name) -> bool
    ensures { result ≡ is_implicit_integer name }
{
    match name.text() {
        [first, ..] => b'I' <= *first && *first <= b'N',
        [] => false,
    }
}

impl Facts {
    fn lacks_type(self) -> bool
        ensures { result ≡ lacks_type_by self }
    {
        (self.is_variable() || self.constant) && self.kind.is_none()
    }

    fn is_real(self, name: Name) -> bool
        ensures { result ≡ is_real_by self name }
    {
        self.lacks_type() && !is_implicit_integer(name)
    }
}

impl Names {
    fn is_real(&self, used: &Use) -> bool
        ensures { result ≡ is_real_use self.now (plain_use used.now) }
    {
        match used.role {
            Role::Title => false,
            Role::Typed(_) | Role::Bounded(_) | Role::Defined => {
                self.facts(used.name).is_real(used.name)
            }
            Role::Valued(_) | Role::Target(_) | Role::Counter => {
                self.facts(used.name).is_real(used.name)
            }
        }
    }

    fn has_real(&self, uses: &[Use]) -> bool
        ensures { result ≡ list_any (is_real_use self.now) (map plain_use uses.now) }
    {
        for used in uses {
            if self.is_real(used) {
                return true;
            }
        }
        false
    }

    fn is_untyped(&self, used: &Use) -> bool
        ensures { result ≡ is_untyped_use self.now (plain_use used.now) }
    {
        match used.role {
            Role::Title => false,
            Role::Typed(_) | Role::Bounded(_) | Role::Defined => self.facts(used.name).lacks_type(),
            Role::Valued(_) | Role::Target(_) | Role::Counter => self.facts(used.name).lacks_type(),
        }
    }

    fn has_untyped(&self, uses: &[Use]) -> bool
        ensures { result ≡ list_any (is_untyped_use self.now) (map plain_use uses.now) }
    {
        for used in uses {
            if self.is_untyped(used) {
                return true;
            }
        }
        false
    }
}

// IMPLICIT NONE stands in the program.
fn has_implicit_none(text: &[Labelled]) -> bool
    ensures { result ≡ has_implicit_none (text_of text.now) }
{
    for statement in text {
        if statement.statement.is_implicit_none() {
            return true;
        }
    }
    false
}

// The place of the first statement with a name that would be REAL without IMPLICIT NONE.
fn real_use(alloc: Global, text: &[Labelled], known: &KnownNames) -> Result<Option<usize>, Memory>
    requires { listed known.now.uses ≡ plain.uses_in_text (text_of text.now) }
    ensures { IfOk result (λ place. place
        ≡ first_index (has_name (is_real (plain.uses_in_text (text_of text.now)))) (text_of text.now)) }
{
    for (i, statement) in text.iter().enumerate() {
        let here = uses_of(alloc, &statement.statement)?;
        if known.names.has_real(here.as_slice()) {
            return Ok(Some(i));
        }
    }
    Ok(None)
}

// The place of the first statement with a name without type.
fn untyped_use(
    alloc: Global,
    text: &[Labelled],
    known: &KnownNames,
) -> Result<Option<usize>, Memory>
    requires { listed known.now.uses ≡ plain.uses_in_text (text_of text.now) }
    ensures { IfOk result (λ place. place
        ≡ first_index (has_name (lacks_type (plain.uses_in_text (text_of text.now)))) (text_of text.now)) }
{
    for (i, statement) in text.iter().enumerate() {
        let here = uses_of(alloc, &statement.statement)?;
        if known.names.has_untyped(here.as_slice()) {
            return Ok(Some(i));
        }
    }
    Ok(None)
}

/// The place of the first statement with a name that would be REAL, where IMPLICIT NONE doesn't stand.
pub fn real_name(
    alloc: Global,
    text: &[Labelled],
    known: &KnownNames,
) -> Result<Option<usize>, Memory>
    requires { listed known.now.uses ≡ plain.uses_in_text (text_of text.now) }
    ensures { IfOk result (λ place. place
        ≡ first_index (has_real_name (text_of text.now) (plain.uses_in_text (text_of text.now))) (text_of text.now)) }
{
    if has_implicit_none(text) {
        return Ok(None);
    }
    real_use(alloc, text, known)
}

/// The place of the first statement with a name without type, where IMPLICIT NONE stands.
pub fn untyped_name(
    alloc: Global,
    text: &[Labelled],
    known: &KnownNames,
) -> Result<Option<usize>, Memory>
    requires { listed known.now.uses ≡ plain.uses_in_text (text_of text.now) }
    ensures { IfOk result (λ place. place
        ≡ first_index (has_untyped_name (text_of text.now) (plain.uses_in_text (text_of text.now)))
        (text_of text.now)) }
{
    if has_implicit_none(text) {
        untyped_use(alloc, text, known)
    } else {
        Ok(None)
    }
}
