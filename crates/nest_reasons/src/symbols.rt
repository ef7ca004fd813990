//! Symbols: the scalars that a loop doesn't write.
ghost use Rattle.std.specs.Prelude.{◌≡◌, [], map, IfOk};
ghost use Rattle.std.specs.Str.{bytes_eq};
ghost use Rattle.indexmap.specs.IndexSet.{insert_all};
ghost use Rattle.tree.specs.View.{declaration_of, block_of};
ghost use Rattle.nest_reasons.specs.Symbols.{is_integer_scalar, is_symbol, symbols_of};

use crate::names::push_if;
use indexmap::IndexSet;
use rewrite::names_written;
use std::alloc::Global;
use tree::{Block, Decl, Extent, Kind, Memory, Name, Seq};

fn is_integer_scalar(decl: &Decl) -> bool
    ensures { result ≡ is_integer_scalar (declaration_of decl.now) }
{
    match decl.kind {
        Kind::Integer => match &decl.extent {
            Extent::Scalar => true,
            Extent::Fixed(dims) => dims.as_slice().is_empty(),
            Extent::Later(_) => false,
        },
        Kind::Logical => false,
    }
}

// The names as a set.
fn set_of(alloc: Global, names: &[Name]) -> Result<IndexSet<Name>, Memory>
    ensures { IfOk result (λ set. set.keys ≡ insert_all bytes_eq [] names.now) }
{
    let mut set = IndexSet::new(alloc);
    for name in names {
        set.insert(*name)?;
    }
    Ok(set)
}

#[tactic(auto, using(crate::proofs::SymbolLaws::symbol_laws))]
fn is_symbol(decl: &Decl, variable: Name, written: &IndexSet<Name>, names: &[Name]) -> bool
    requires { written.now.keys ≡ insert_all bytes_eq [] names.now }
    ensures { result ≡ is_symbol variable names.now (declaration_of decl.now) }
{
    is_integer_scalar(decl) && decl.name != variable && !written.contains(&decl.name)
}

/// The symbols of a loop with this variable and this body: the INTEGER scalars that it doesn't write, in the order of
/// the declarations.
pub fn symbols_of(
    alloc: Global,
    decls: &Seq<Decl>,
    variable: Name,
    body: &Block,
) -> Result<Seq<Name>, Memory>
    ensures { IfOk result (λ symbols. symbols
        ≡ symbols_of (map declaration_of decls.now) variable (block_of body.now)) }
{
    let names = names_written(alloc, body)?;
    let written = set_of(alloc, names.as_slice())?;
    let mut symbols = Seq::new(alloc);
    for decl in decls.as_slice() {
        let chosen = is_symbol(decl, variable, &written, names.as_slice());
        push_if(&mut symbols, chosen, decl.name)?;
    }
    Ok(symbols)
}
