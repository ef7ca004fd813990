//! The names that stand in an expression, and those that a block reads or writes.
ghost use Rattle.std.specs.Prelude.{◌≡◌, IfOk, OnOk};
ghost use Rattle.std.specs.List.{list_any};
ghost use Rattle.meaning.specs.Reads.{names_in_block};
ghost use Rattle.meaning.specs.Names.{is_among};
ghost use Rattle.meaning.specs.Reads.{names_in};
ghost use Rattle.tree.specs.View.{block_of, expression_of, reference_of};
ghost use Rattle.rewrite.specs.declared.uses.Use.{Use};
ghost use Rattle.rewrite.specs.Names.{uses_in_block, names_standing, without_repeats};
ghost use Rattle.rewrite.specs.NamesAlong.{names_read_in, with_use, names_in_reference};
ghost use Rattle.rewrite.specs.Names.{names_written_in, mentions};

use crate::statement_names::add_block_names;
use crate::uses::{Use, Uses, Way};
use indexmap::IndexSet;
use std::alloc::Global;
use tree::{Block, Expr, Memory, Name, Ref, Seq};

/// The names that stand in an expression, in the order of the text, as often as they stand.
pub fn names_in_expr(alloc: Global, expr: &Expr) -> Result<Seq<Name>, Memory>
    ensures { IfOk result (λ names. names ≡ names_in (expression_of expr.now)) }
{
    let mut uses = Uses::new(alloc);
    uses.add_expr(expr)?;
    let Uses { names, list: _ } = uses;
    Ok(names)
}

/// The names that stand in a reference: its own, and those in its subscripts.
pub fn names_in_ref(alloc: Global, item: &Ref) -> Result<Seq<Name>, Memory>
    ensures { IfOk result (λ names. names ≡ names_in_reference (reference_of item.now)) }
{
    let mut uses = Uses::new(alloc);
    uses.add_value(item)?;
    let Uses { names, list: _ } = uses;
    Ok(names)
}

/// All names that stand in the block, as often as they stand there: those that are assigned, read or written, variables
/// of loops, and those in expressions, in subscripts, bounds and the loops of constructors too.
pub fn names_in_block(alloc: Global, block: &Block) -> Result<Seq<Name>, Memory>
    ensures { IfOk result (λ names. names ≡ names_in_block (block_of block.now)) }
{
    let mut uses = Uses::new(alloc);
    add_block_names(&mut uses, block)?;
    let Uses { names, list: _ } = uses;
    Ok(names)
}

fn insert_standing(names: &mut IndexSet<Name>, used: Use, way: Way) -> Result<(), Memory>
    ensures { OnOk result (names.new.keys ≡ with_use way names.old.keys used) }
{
    if used.way.is(way) {
        names.insert(used.name)?;
    }
    Ok(())
}

fn names_standing(alloc: Global, uses: &[Use], way: Way) -> Result<IndexSet<Name>, Memory>
    ensures { IfOk result (λ names. names.keys ≡ without_repeats (names_standing way uses.now)) }
{
    let mut names = IndexSet::new(alloc);
    for used in uses {
        insert_standing(&mut names, *used, way)?;
    }
    Ok(names)
}

fn names_of_way(alloc: Global, block: &Block, way: Way) -> Result<Seq<Name>, Memory>
    ensures { IfOk result (λ names. names
        ≡ without_repeats (names_standing way (uses_in_block (block_of block.now)))) }
{
    let mut uses = Uses::new(alloc);
    uses.add_block(block)?;
    let names = names_standing(alloc, uses.list.as_slice(), way)?;
    Ok(Seq::from_vec(Vec::from_slice(alloc, names.as_slice())?))
}

/// The names that the block reads, each once, in the order in which they stand first: those in right sides, masks,
/// conditions, subscripts, section bounds, bounds of loops, extents and output items.
pub fn names_read(alloc: Global, block: &Block) -> Result<Seq<Name>, Memory>
    ensures { IfOk result (λ names. names ≡ names_read_in (block_of block.now)) }
{
    names_of_way(alloc, block, Way::Reads)
}

/// The names that the block writes, each once, in the order in which they stand first: those that are assigned or read
/// into, variables of DO and of implied DO lists, and arrays that are allocated or deallocated.
pub fn names_written(alloc: Global, block: &Block) -> Result<Seq<Name>, Memory>
    ensures { IfOk result (λ names. names ≡ names_written_in (block_of block.now)) }
{
    names_of_way(alloc, block, Way::Writes)
}

fn is_among(name: Name, names: &[Name]) -> bool
    ensures { result ≡ is_among names.now name }
{
    names.iter().any(|one| name == *one)
}

fn is_used(uses: &[Use], names: &[Name]) -> bool
    ensures { result ≡ list_any (λ (used : Use). is_among names.now used.name) uses.now }
{
    uses.iter().any(|used| is_among(used.name, names))
}

/// Whether one of the names stands in the expression.
pub fn mentions(alloc: Global, expr: &Expr, names: &[Name]) -> Result<bool, Memory>
    ensures { IfOk result (λ found. found ≡ mentions names.now (expression_of expr.now)) }
{
    let mut uses = Uses::new(alloc);
    uses.add_expr(expr)?;
    Ok(is_used(uses.list.as_slice(), names))
}
