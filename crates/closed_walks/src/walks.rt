//! The least of the shortest closed walks from a number.
ghost use Rattle.std.specs.Prelude.{◌≡◌, ◌<◌, ◌+◌, length, IfOk};
ghost use Rattle.components.specs.Reachability.{AreBelow};
ghost use Rattle.closed_walks.specs.Distances.{AreChosen, CanFollow, IsLeastNext, IsLesser, IsTaken};
ghost use Rattle.closed_walks.specs.Walks.{IsAnswer};

use crate::distances::{has_steps, starting, sweep};
use std::alloc::Global;
use tree::{Memory, Seq};

fn lesser(least: Option<usize>, number: usize) -> Option<usize>
    ensures { IsLesser least number result }
{
    match least {
        Some(other) if other <= number => least,
        _ => Some(number),
    }
}

// The lesser of what is known and the end of the pair, where the pair begins here and its end is so many steps away.
fn taken(
    least: Option<usize>,
    steps: &[Option<usize>],
    pair: (usize, usize),
    from: usize,
    count: usize,
) -> Option<usize>
    requires { pair.1 < length steps.now }
    ensures { IsTaken steps.now from count pair.0 pair.1 least result }
{
    if pair.0 != from {
        return least;
    }
    if !has_steps(steps, pair.1, count) {
        return least;
    }
    lesser(least, pair.1)
}

// The least number to which one leads from which the target is so many steps away.
fn least_next(
    pairs: &[(usize, usize)],
    steps: &[Option<usize>],
    from: usize,
    count: usize,
) -> Option<usize>
    requires below { AreBelow (length steps.now) pairs.now }
    ensures { IsLeastNext pairs.now steps.now from count result }
{
    let mut least = None;
    for &pair in pairs {
        least = taken(least, steps, pair, from, count);
    }
    least
}

// From `from`, which has a step more than `count`, over the least number with each number of steps to the target.
fn follow(
    alloc: Global,
    pairs: &[(usize, usize)],
    steps: &[Option<usize>],
    from: usize,
    count: usize,
) -> Result<Seq<usize>, Memory>
    requires below { AreBelow (length steps.now) pairs.now }
    requires leads { CanFollow pairs.now steps.now from (count + 1) }
    requires small { count < length steps.now }
    ensures { IfOk result (λ over. AreChosen pairs.now steps.now from (count + 1) over) }
{
    let mut over = Seq::new(alloc);
    let mut at = from;
    let mut left = count + 1;
    while left > 0 {
        left -= 1;
        let Some(next) = least_next(pairs, steps, at, left) else {
            return Ok(over);
        };
        over.push(next)?;
        at = next;
    }
    Ok(over)
}

/// The least of the shortest closed walks from a number, as the numbers that follow it, the last one being itself, or
/// that there is none, in the directed graph that has the numbers below `n` as its nodes and the pairs as its edges.
pub fn closed_walk(
    alloc: Global,
    n: usize,
    pairs: &[(usize, usize)],
    start: usize,
) -> Result<Option<Seq<usize>>, Memory>
    requires below { AreBelow n pairs.now }
    requires start { start < n }
    ensures { IfOk result (λ answer. IsAnswer pairs.now start answer) }
{
    let mut steps = starting(alloc, n, start)?;
    for count in 0..n {
        if least_next(pairs, steps.as_slice(), start, count).is_some() {
            let walk = follow(alloc, pairs, steps.as_slice(), start, count)?;
            return Ok(Some(walk));
        }
        if !sweep(pairs, &mut steps, count) {
            return Ok(None);
        }
    }
    Ok(None)
}
