//! A moment of a run.
ghost use Rattle.std.specs.Prelude.{◌≡◌, map};
ghost use Rattle.tree.specs.View.{declaration_of};
ghost use Rattle.array_values.specs.storage.Opening.{KindsAreDeclared};
ghost use Rattle.array_values.specs.storage.Stored.{slots_in};
ghost use Rattle.array_expressions.specs.assignments.Propositions.{KindsAreDeclared-prop};

use crate::Scope;
use array_values::storage::Storage;
use machine::Progress;
use std::alloc::Global;
use tree::{Decl, Seq};

/// What is where in a run: the declared names, their values, and how far the run is.
#[derive(Drop)]
#[rattlefmt::skip]
pub struct Moment {
    pub alloc: Global,
    pub decls: Seq<Decl>,
    pub storage: Storage,
    pub progress: Progress,
    ghost kinds: { KindsAreDeclared (map declaration_of decls) (slots_in storage) }
        by { KindsAreDeclared-prop (map declaration_of decls) (slots_in storage) },
}

impl Moment {
    /// Where expressions are evaluated.
    pub fn scope(&self) -> Scope<'_>
        ensures { result.storage.now ≡ self.now.storage }
    {
        Scope {
            alloc: self.alloc,
            storage: &self.storage,
        }
    }
}
