//! The variables whose last values stand behind all loops.
ghost use Rattle.std.specs.Prelude.{◌≡◌, ◌≤◌, All, length, map, IfOk};
ghost use Rattle.std.specs.List.{list_all};
ghost use Rattle.tree.specs.View.{statement_of, block_of};
ghost use Rattle.nest.specs.View.{part_of};
ghost use Rattle.last_values.specs.Behind.{ends_behind, may_end_behind, stands_behind};
ghost use Rattle.last_values.specs.ValuesBehind.{left_behind, values_behind};
ghost use Rattle.last_values.specs.Nested.{IsNested};

use crate::endings::after_statements;
use crate::normal_forms::{NormalLoop, have_plain_trips, last_forms};
use crate::occurrences::occurs_only_within;
use nest::Part;
use std::alloc::Global;
use tree::{Block, Memory, Name, Seq, Stmt};

/// A loop with the loops round it, from the outside in.
#[derive(Drop)]
pub struct NestedLoop {
    pub round: Seq<NormalLoop>,
    pub turns: NormalLoop,
}

impl NestedLoop {
    // Whether its last turn is known, and its forms are within the limits.
    fn ends_behind(&self, alloc: Global, count: u16) -> Result<bool, Memory>
        requires symbols { count ≤ 1000 }
        requires nested { IsNested self.now }
        ensures { IfOk result (λ found. found ≡ ends_behind count self.now) }
    {
        let round = self.round.as_slice();
        if !have_plain_trips(round) {
            return Ok(false);
        }
        match last_forms(alloc, count, round, &self.turns)? {
            Some(_) => Ok(true),
            None => Ok(false),
        }
    }

    fn may_end_behind(&self, alloc: Global, count: u16, variable: Name) -> Result<bool, Memory>
        requires symbols { count ≤ 1000 }
        requires nested { IsNested self.now }
        ensures { IfOk result (λ found. found ≡ may_end_behind count variable self.now) }
    {
        if self.turns.variable != variable {
            return Ok(true);
        }
        self.ends_behind(alloc, count)
    }
}

fn all_end_behind(
    alloc: Global,
    count: u16,
    loops: &Seq<NestedLoop>,
    variable: Name,
) -> Result<bool, Memory>
    requires symbols { count ≤ 1000 }
    requires nested { All IsNested loops.now }
    ensures { IfOk result (λ found. found ≡ list_all (may_end_behind count variable) loops.now) }
{
    for nested in loops.as_slice() {
        if !nested.may_end_behind(alloc, count, variable)? {
            return Ok(false);
        }
    }
    Ok(true)
}

/// Whether the last values of a variable of the loops of this nest stand behind all loops, and not in place; `count`
/// is how many symbols there are.
#[tactic(auto, unfolding(crate::specs::Behind::stands_behind))]
pub fn stands_behind(
    alloc: Global,
    count: u16,
    loops: &Seq<NestedLoop>,
    body: &Part,
    variable: Name,
) -> Result<bool, Memory>
    requires symbols { count ≤ 1000 }
    requires nested { All IsNested loops.now }
    ensures { IfOk result (λ found. found ≡ stands_behind count loops.now (part_of body.now) variable) }
{
    if !occurs_only_within(body, variable) {
        return Ok(false);
    }
    all_end_behind(alloc, count, loops, variable)
}

fn left_behind(
    alloc: Global,
    symbols: &Seq<Name>,
    line: u32,
    loops: &Seq<NestedLoop>,
    body: &Part,
    nested: &NestedLoop,
) -> Result<Vec<Stmt>, Memory>
    requires symbols { length symbols.now ≤ 1000 }
    requires nested { All IsNested loops.now }
    requires within { IsNested nested.now }
    ensures { IfOk result (λ stmts. map statement_of stmts.items
        ≡ left_behind symbols.now line loops.now (part_of body.now) nested.now) }
{
    let count = symbols.len() as u16;
    if !stands_behind(alloc, count, loops, body, nested.turns.variable)? {
        return Ok(Vec::new(alloc));
    }
    let round = nested.round.as_slice();
    match after_statements(alloc, symbols, line, round, &nested.turns)? {
        Some(stmts) => Ok(stmts.into_vec()),
        None => Ok(Vec::new(alloc)),
    }
}

/// The last values of the variables of these loops of a nest, as far as they stand behind all loops, in the order of
/// the loops.
pub fn values_behind(
    alloc: Global,
    symbols: &Seq<Name>,
    line: u32,
    loops: &Seq<NestedLoop>,
    body: &Part,
) -> Result<Block, Memory>
    requires symbols { length symbols.now ≤ 1000 }
    requires nested { All IsNested loops.now }
    ensures { IfOk result (λ made. block_of made
        ≡ values_behind symbols.now line loops.now (part_of body.now)) }
{
    let mut stmts = Vec::new(alloc);
    for nested in loops.as_slice() {
        let mut left = left_behind(alloc, symbols, line, loops, body, nested)?;
        stmts.append(&mut left)?;
    }
    Ok(Block {
        stmts: Seq::from_vec(stmts),
    })
}
