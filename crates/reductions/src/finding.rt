//! Which loops that gather by their form may become one statement.
ghost use Rattle.std.specs.Prelude.{◌≡◌, IfOk, is_some, map};
ghost use Rattle.tree.specs.View.{declaration_of};
ghost use Rattle.meaning.specs.Typed.{declared};
ghost use Rattle.tree.specs.Functions.{name_of_reduction};
ghost use Rattle.reductions.specs.Finding.{has_own_variable, has_scalars, is_apart};
ghost use Rattle.reductions.specs.Finding.{is_hidden, is_reducible, is_source, is_title};
ghost use Rattle.reductions.specs.View.{context_in, found_of};

use crate::loops::FoundLoop;
use crate::scalars::{is_scalar, is_scalar_item};
use crate::standing::{stands_in, stands_in_subs};
use indexmap::IndexSet;
use std::alloc::Global;
use tree::{Decl, Memory, Name, Red, Seq};

/// What a program has beside a loop: its declarations, its name, and the names that are read outside the bodies of
/// their own loops.
#[derive(Drop)]
pub(crate) struct Context<'a> {
    pub decls: &'a Seq<Decl>,
    pub title: Option<Name>,
    pub reads: IndexSet<Name>,
}

/// Whether FORTRAN 77 has the name too.
#[tactic(auto, using(crate::proofs::NameLaws::source_laws))]
pub(crate) fn is_source(name: Name) -> bool
    ensures { result ≡ is_source name }
{
    name.is_source()
}

fn is_declared(decls: &[Decl], name: &[u8]) -> bool
    ensures { result ≡ is_some (declared (map declaration_of decls.now) name.now) }
{
    let Some((first, rest)) = decls.split_first() else {
        return false;
    };
    first.name.text() == name || is_declared(rest, name)
}

fn is_title(title: Option<Name>, name: &[u8]) -> bool
    ensures { result ≡ is_title title name.now }
{
    match title {
        Some(title) => title.text() == name,
        None => false,
    }
}

// x, the operand and the trip have no name in common that they may not have.
#[tactic(auto, using(tree::proofs::Equations::expression_equations))]
fn is_apart(alloc: Global, found: &FoundLoop<'_>) -> Result<bool, Memory>
    ensures { IfOk result (λ apart. apart ≡ is_apart (found_of found.now).loop) }
{
    let subs = found.left.subs.as_slice();
    let left = found.left.name;
    if stands_in_subs(alloc, left, subs)? || stands_in_subs(alloc, found.variable, subs)? {
        return Ok(false);
    }
    if stands_in(alloc, left, found.trip)? || stands_in(alloc, found.variable, found.trip)? {
        return Ok(false);
    }
    Ok(!stands_in(alloc, left, found.operand)?)
}

impl Context<'_> {
    // Whether a variable or the program has the name of the function.
    fn hides(&self, function: Red) -> bool
        ensures { result ≡ is_hidden (context_in self.now) (name_of_reduction function) }
    {
        let name = function.spell90().as_bytes();
        is_declared(self.decls.as_slice(), name) || is_title(self.title, name)
    }

    fn has_own_variable(&self, found: &FoundLoop<'_>) -> bool
        ensures { result ≡ has_own_variable (context_in self.now) (found_of found.now).loop }
    {
        !is_source(found.variable) && !self.reads.contains(&found.variable)
    }

    fn has_scalars(&self, found: &FoundLoop<'_>) -> bool
        ensures { result ≡ has_scalars (context_in self.now) (found_of found.now).loop }
    {
        is_scalar_item(self.decls, found.left) && is_scalar(self.decls, found.operand)
    }

    /// Whether a loop that gathers may become one statement.
    pub(crate) fn is_reducible(&self, alloc: Global, found: &FoundLoop<'_>) -> Result<bool, Memory>
        ensures { IfOk result (λ b. b ≡ is_reducible (context_in self.now) (found_of found.now).loop) }
    {
        if !self.has_own_variable(found)
            || self.hides(found.how.gatherer())
            || !self.has_scalars(found)
        {
            return Ok(false);
        }
        is_apart(alloc, found)
    }
}
