//! The values of all names of a program.
ghost use Rattle.std.specs.Prelude.{◌≡◌};
ghost use Rattle.array_values.specs.storage.Names.{own_names};

use crate::storage::slots::Slot;
use indexmap::IndexSet;
use tree::Name;

/// The declared names in order, with their values, and a table of where each name stands among them.
#[derive(Drop)]
pub struct Storage {
    pub(crate) names: IndexSet<Name>,
    pub(crate) slots: Vec<Slot>,
    ghost named: { names.keys ≡ own_names slots.items },
}
