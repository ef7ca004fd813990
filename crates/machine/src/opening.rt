//! The values that a run begins with.
ghost use Rattle.std.specs.Prelude.{◌≡◌, ◌++◌, [], ◌∷◌, None, IfOk, OnOk, length, map};
ghost use Rattle.std.specs.Str.{bytes_eq};
ghost use Rattle.indexmap.specs.IndexMap.{get};
ghost use Rattle.tree.specs.View.{declaration_of};
ghost use Rattle.meaning.specs.Store.{nought};
ghost use Rattle.machine.specs.Storage.{declared, total, noughts_of, opening_of, AreArrays, AreDistinct};
ghost use Rattle.machine.specs.Stored.{names_in, store_in};

use crate::storage::Storage;
use crate::variables::{Variable, dims_of, elements};
use indexmap::IndexMap;
use std::alloc::Global;
use tree::{Decl, Kind, Memory, Name, Seq, Value};

fn nought(kind: Kind) -> Value
    ensures { result ≡ nought kind }
{
    match kind {
        Kind::Integer => Value::Int(0),
        Kind::Logical => Value::Truth(false),
    }
}

// Each value is 0 or `.FALSE.`.
fn clear(variables: &[Variable], values: &mut [Value])
    requires sound { AreArrays (declared variables.now) }
    requires whole { length values.old ≡ total (declared variables.now) }
    ensures { values.new ≡ noughts_of (declared variables.now) }
{
    let mut start = 0;
    for variable in variables {
        let end = start + elements(dims_of(&variable.decl.extent));
        values[start..end].fill(nought(variable.decl.kind));
        start = end;
    }
}

// Puts a name behind those that are there.
fn declare(variables: &mut IndexMap<Name, Variable>, decl: Decl, start: usize) -> Result<(), Memory>
    requires { get bytes_eq variables.old decl.name ≡ None }
    ensures { OnOk result (variables.new.entries
        ≡ variables.old.entries ++ (decl.name, record { decl = decl; start = start }) ∷ []) }
{
    variables.insert(decl.name, Variable { decl, start })?;
    Ok(())
}

impl Storage {
    /// The storage of the names that are declared.
    pub fn new(alloc: Global, decls: Seq<Decl>) -> Result<Storage, Memory>
        requires sound { AreArrays (map declaration_of decls) }
        requires distinct { AreDistinct (map declaration_of decls) }
        ensures names { IfOk result (λ s. names_in s ≡ map declaration_of decls) }
        ensures opened { IfOk result (λ s. store_in s ≡ opening_of (names_in s)) }
    {
        let mut variables = IndexMap::new(alloc);
        let mut values = Vec::new(alloc);
        for decl in decls.into_vec() {
            let start = values.len();
            values.resize(start + elements(dims_of(&decl.extent)), nought(decl.kind))?;
            declare(&mut variables, decl, start)?;
        }
        Ok(Storage { variables, values })
    }

    /// Each value is 0 or `.FALSE.` again.
    pub fn reset(&mut self)
        ensures names { names_in self.new ≡ names_in self.old }
        ensures opened { store_in self.new ≡ opening_of (names_in self.new) }
    {
        clear(self.variables.values().as_slice(), &mut self.values);
    }
}
