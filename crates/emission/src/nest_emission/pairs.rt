//! Which statements of a part lead to which by the dependences at work at a level.
ghost use Rattle.std.specs.Prelude.{◌≡◌, ◌≢◌, ◌<◌, ℕ, IfOk, IfSome, IsNone, OnOk, length, slice_index};
ghost use Rattle.components.specs.Lists.{Distinct};
ghost use Rattle.emission.specs.emission_pieces.Levels.{ArePairsAt, is_at_work, joins};
ghost use Rattle.emission.specs.nest_emission.Pairs.{AddsPairOf};

use dependence_graph::graphs::Edge;
use std::alloc::Global;
use tree::Memory;

/// Whether no loop outside the level carries it.
pub fn is_at_work(level: usize, carried: u8) -> bool
    ensures { result ≡ is_at_work level carried }
{
    carried == 0 || level <= carried as usize
}

/// Whether the dependence is at work at this level, and leads from the one statement to the other.
pub fn joins(level: usize, from: usize, to: usize, edge: &Edge) -> bool
    ensures { result ≡ joins level from to edge.now }
{
    edge.from.stmt as usize == from && edge.to.stmt as usize == to && is_at_work(level, edge.level)
}

fn place_of(part: &[usize], statement: usize) -> Option<usize>
    ensures found { IfSome result (λ i. (i < length part.now) × (slice_index part.now i ≡ statement)) }
    ensures none { IsNone result → (k : ℕ) → k < length part.now → slice_index part.now k ≢ statement }
{
    part.iter().position(|other| *other == statement)
}

// Adds the places of the two statements, where the dependence is at work and both stand in the part.
fn add_pair(
    pairs: &mut Vec<(usize, usize)>,
    part: &[usize],
    level: usize,
    edge: &Edge,
) -> Result<(), Memory>
    requires { Distinct part.now }
    ensures { OnOk result (AddsPairOf level part.now edge.now pairs.old.items pairs.new.items) }
{
    if !is_at_work(level, edge.level) {
        return Ok(());
    }
    let Some(from) = place_of(part, edge.from.stmt as usize) else {
        return Ok(());
    };
    let Some(to) = place_of(part, edge.to.stmt as usize) else {
        return Ok(());
    };
    pairs.push((from, to))?;
    Ok(())
}

/// The places of a part's statements, paired where a dependence at work leads from the one to the other.
pub fn pairs_at(
    alloc: Global,
    part: &[usize],
    edges: &[Edge],
    level: usize,
) -> Result<Vec<(usize, usize)>, Memory>
    requires { Distinct part.now }
    ensures { IfOk result (λ pairs. ArePairsAt edges.now level part.now pairs.items) }
{
    let mut pairs = Vec::new(alloc);
    for edge in edges {
        add_pair(&mut pairs, part, level, edge)?;
    }
    Ok(pairs)
}
