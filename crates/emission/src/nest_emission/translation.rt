//! The translation of a nest.
ghost use Rattle.std.specs.Prelude.{◌≡◌, ◌++◌, IfOk, OnOk, length, map};
ghost use Rattle.std.specs.List.{flat_map, range_with_len};
ghost use Rattle.emission.specs.emission_pieces.Emission.{IsEmission};
ghost use Rattle.tree.specs.Plain.{block};
ghost use Rattle.tree.specs.View.{block_of, statement_of};
ghost use Rattle.nest.specs.View.{made_of, nest_of};
ghost use Rattle.emission.specs.nest_emission.Given.{MayBeEmitted};
ghost use Rattle.emission.specs.nest_emission.Translations.{allocation, deallocation, translation_of};

use crate::nest_emission::blocks::append;
use crate::nest_emission::source::ListedNest;
use dependence_graph::graphs::{Graph, Hold};
use nest::statement_loops::statements_of;
use nest::{Made, Nest, copy_exprs};
use std::alloc::Global;
use tree::{Block, Memory, Seq, Stmt};

// A scalar has no ALLOCATE.
fn add_allocation(
    stmts: &mut Vec<Stmt>,
    alloc: Global,
    line: u32,
    made: &Made,
) -> Result<(), Memory>
    ensures { OnOk result (map statement_of stmts.new.items
        ≡ map statement_of stmts.old.items ++ allocation line (made_of made.now)) }
{
    if made.extents.is_empty() {
        return Ok(());
    }
    stmts.push(Stmt::Allocate {
        line,
        name: made.name,
        extents: copy_exprs(&made.extents, alloc)?,
    })?;
    Ok(())
}

// A scalar has no DEALLOCATE.
fn add_deallocation(stmts: &mut Vec<Stmt>, line: u32, made: &Made) -> Result<(), Memory>
    ensures { OnOk result (map statement_of stmts.new.items
        ≡ map statement_of stmts.old.items ++ deallocation line (made_of made.now)) }
{
    if made.extents.is_empty() {
        return Ok(());
    }
    stmts.push(Stmt::Deallocate {
        line,
        name: made.name,
    })?;
    Ok(())
}

fn add_allocations(
    stmts: &mut Vec<Stmt>,
    alloc: Global,
    line: u32,
    made: &[Made],
) -> Result<(), Memory>
    ensures { OnOk result (map statement_of stmts.new.items
        ≡ map statement_of stmts.old.items ++ flat_map (allocation line) (map made_of made.now)) }
{
    for array in made {
        add_allocation(stmts, alloc, line, array)?;
    }
    Ok(())
}

fn add_deallocations(stmts: &mut Vec<Stmt>, line: u32, made: &[Made]) -> Result<(), Memory>
    ensures { OnOk result (map statement_of stmts.new.items
        ≡ map statement_of stmts.old.items ++ flat_map (deallocation line) (map made_of made.now)) }
{
    for array in made {
        add_deallocation(stmts, line, array)?;
    }
    Ok(())
}

// The block with the arrays of the nest allocated before it, and deallocated behind what comes after it.
fn translation(alloc: Global, nest: &Nest, body: Block) -> Result<Block, Memory>
    ensures { IfOk result (λ b. block_of b ≡ translation_of (nest_of nest.now) (block_of body)) }
{
    let mut stmts = Vec::new(alloc);
    add_allocations(&mut stmts, alloc, nest.line, nest.made.as_slice())?;
    append(&mut stmts, body)?;
    append(&mut stmts, nest.after.copy(alloc)?)?;
    add_deallocations(&mut stmts, nest.line, nest.made.as_slice())?;
    Ok(Block {
        stmts: Seq::from_vec(stmts),
    })
}

/// The numbers from 0 on.
pub fn numbers_below(alloc: Global, count: usize) -> Result<Vec<usize>, Memory>
    ensures { IfOk result (λ numbers. numbers.items ≡ range_with_len 0 count) }
{
    let mut numbers = Vec::new(alloc);
    for number in 0..count {
        numbers.push(number)?;
    }
    Ok(numbers)
}

/// What is emitted for a nest by its graph and its holds: at each level the classes of its statements one after
/// another, a statement by itself as it is or in array form, any other class in its loop; each assignment has its mark.
pub fn emit(alloc: Global, nest: &Nest, graph: &Graph, holds: &Seq<Hold>) -> Result<Block, Memory>
    requires { MayBeEmitted (nest_of nest.now) graph.now }
    ensures { IfOk result (λ b. IsEmission (nest_of nest.now) graph.now holds.now (block_of b)) }
{
    let count = graph.stmts;
    let statements = statements_of(alloc, nest)?;
    let source = ListedNest {
        alloc,
        nest,
        statements: statements.as_slice(),
        edges: graph.edges.as_slice(),
        holds: holds.as_slice(),
    };
    let part = numbers_below(alloc, count as usize)?;
    let body = source.part_block(1, part.as_slice())?;
    translation(alloc, nest, body)
}
