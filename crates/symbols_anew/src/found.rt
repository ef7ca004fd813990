//! INTEGER scalars that a nest gives no values to any more.
ghost use Rattle.std.specs.Prelude.{◌≡◌, ◌++◌, ◌∷◌, [], if◌then◌else◌, IfOk, OnOk};
ghost use Rattle.std.specs.Str.{bytes_eq};
ghost use Rattle.indexmap.specs.IndexSet.{insert_all};
ghost use Rattle.nest.specs.View.{nest_of};
ghost use Rattle.nest_reasons.specs.Symbols.{is_integer_scalar};
ghost use Rattle.symbols_anew.specs.Found.{is_new, known_names, names_assigned, new_symbols};
ghost use Rattle.tree.specs.View.{declaration_of};

use indexmap::IndexSet;
use nest::Nest;
use nest::statement_loops::statements_of;
use std::alloc::Global;
use tree::{Decl, Extent, Kind, Memory, Name, Seq};

fn is_integer_scalar(decl: &Decl) -> bool
    ensures { result ≡ is_integer_scalar (declaration_of decl.now) }
{
    match decl.kind {
        Kind::Integer => match &decl.extent {
            Extent::Scalar => true,
            Extent::Fixed(dims) => dims.as_slice().is_empty(),
            Extent::Later(_) => false,
        },
        Kind::Logical => false,
    }
}

fn names_assigned(alloc: Global, nest: &Nest) -> Result<Seq<Name>, Memory>
    ensures { IfOk result (λ names. names ≡ names_assigned (nest_of nest.now)) }
{
    let standings = statements_of(alloc, nest)?;
    let mut names = Seq::new(alloc);
    for standing in standings.as_slice() {
        names.push(standing.stmt.left.name)?;
    }
    Ok(names)
}

fn known_names(alloc: Global, nest: &Nest) -> Result<Seq<Name>, Memory>
    ensures { IfOk result (λ names. names ≡ known_names (nest_of nest.now)) }
{
    let assigned = names_assigned(alloc, nest)?;
    let mut names = Vec::from_slice(alloc, nest.symbols.as_slice())?;
    names.extend_from_slice(assigned.as_slice())?;
    Ok(Seq::from_vec(names))
}

// The names as a set.
fn set_of(alloc: Global, names: &[Name]) -> Result<IndexSet<Name>, Memory>
    ensures { IfOk result (λ set. set.keys ≡ insert_all bytes_eq [] names.now) }
{
    let mut set = IndexSet::new(alloc);
    for name in names {
        set.insert(*name)?;
    }
    Ok(set)
}

#[tactic(auto, using(nest_reasons::proofs::SymbolLaws::symbol_laws))]
fn is_new(
    decl: &Decl,
    assigned: &IndexSet<Name>,
    before: &[Name],
    known: &IndexSet<Name>,
    names: &[Name],
) -> bool
    requires assigned { assigned.now.keys ≡ insert_all bytes_eq [] before.now }
    requires known { known.now.keys ≡ insert_all bytes_eq [] names.now }
    ensures { result ≡ is_new before.now names.now (declaration_of decl.now) }
{
    is_integer_scalar(decl) && assigned.contains(&decl.name) && !known.contains(&decl.name)
}

// Adds the name where it is chosen.
fn push_if(names: &mut Seq<Name>, chosen: bool, name: Name) -> Result<(), Memory>
    ensures { OnOk result (names.new ≡ (if chosen then names.old ++ name ∷ [] else names.old)) }
{
    if chosen {
        names.push(name)?;
    }
    Ok(())
}

/// The INTEGER scalars that a nest gave values to, and that what was made of it gives none to, in the order of the
/// declarations; they aren't among its symbols so far.
pub fn new_symbols(alloc: Global, before: &Nest, nest: &Nest) -> Result<Seq<Name>, Memory>
    ensures { IfOk result (λ symbols. symbols ≡ new_symbols (nest_of before.now) (nest_of nest.now)) }
{
    let given = names_assigned(alloc, before)?;
    let names = known_names(alloc, nest)?;
    let assigned = set_of(alloc, given.as_slice())?;
    let known = set_of(alloc, names.as_slice())?;
    let mut symbols = Seq::new(alloc);
    for decl in nest.decls.as_slice() {
        let chosen = is_new(decl, &assigned, given.as_slice(), &known, names.as_slice());
        push_if(&mut symbols, chosen, decl.name)?;
    }
    Ok(symbols)
}
