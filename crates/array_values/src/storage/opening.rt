//! The store that a run begins with.
ghost use Rattle.std.specs.Prelude.{◌≡◌, ◌++◌, [], ◌∷◌, false, map, IfOk, OnOk};
ghost use Rattle.std.specs.Str.{bytes_eq};
ghost use Rattle.std.specs.List.{list_any};
ghost use Rattle.tree.specs.View.{bounds_of, declaration_of, extent_of};
ghost use Rattle.meaning.specs.Store.{nought};
ghost use Rattle.machine.specs.Storage.{AreDistinct, opening_of};
ghost use Rattle.array_values.specs.storage.Opening.{IsOpened, is_given, KindsAreDeclared};
ghost use Rattle.array_values.specs.storage.Stored.{slots_in, store_in};

use crate::storage::bounds::Bounds;
use crate::storage::slots::Slot;
use crate::storage::storage::Storage;
use indexmap::IndexSet;
use machine::dims_of;
use std::alloc::Global;
use tree::{Decl, Extent, Kind, Memory, Name, Value};

/// 0 or `.FALSE.`.
pub(crate) fn nought(kind: Kind) -> Value
    ensures { result ≡ nought kind }
{
    match kind {
        Kind::Integer => Value::Int(0),
        Kind::Logical => Value::Truth(false),
    }
}

fn is_given(extent: &Extent) -> bool
    ensures { result ≡ is_given (extent_of extent.now) }
{
    match extent {
        Extent::Scalar => true,
        Extent::Fixed(_) => true,
        Extent::Later(_) => false,
    }
}

impl Slot {
    // The name as it is when a run begins.
    fn open(alloc: Global, decl: &Decl) -> Result<Slot, Memory>
        ensures { IfOk result (IsOpened (declaration_of decl.now)) }
    {
        let bounds = Bounds::of(alloc, dims_of(&decl.extent))?;
        let Some(count) = bounds.count() else {
            return Err(Memory);
        };
        let mut values = Vec::new(alloc);
        values.resize(count, nought(decl.kind))?;
        Ok(Slot {
            name: decl.name,
            kind: decl.kind,
            there: is_given(&decl.extent),
            bounds,
            values,
        })
    }
}

// Puts a name behind those that are there.
fn declare(names: &mut IndexSet<Name>, name: Name) -> Result<(), Memory>
    requires { list_any (bytes_eq name) names.old.keys ≡ false }
    ensures { OnOk result (names.new.keys ≡ names.old.keys ++ name ∷ []) }
{
    names.insert(name)?;
    Ok(())
}

impl Storage {
    /// The storage of the names that are declared, as it is when a run begins.
    pub fn new(alloc: Global, decls: &[Decl]) -> Result<Storage, Memory>
        requires { AreDistinct (map declaration_of decls.now) }
        ensures opened { IfOk result (λ s. store_in s ≡ opening_of (map declaration_of decls.now)) }
        ensures kinds { IfOk result (λ s. KindsAreDeclared (map declaration_of decls.now) (slots_in s)) }
    {
        let mut names = IndexSet::new(alloc);
        let mut slots = Vec::new(alloc);
        for decl in decls {
            let slot = Slot::open(alloc, decl)?;
            declare(&mut names, decl.name)?;
            slots.push(slot)?;
        }
        Ok(Storage { names, slots })
    }
}
