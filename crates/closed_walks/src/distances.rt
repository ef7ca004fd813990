//! How many steps numbers are away from another one.
ghost use Rattle.std.specs.Prelude.{◌≡◌, ◌<◌, ◌↔◌, None, Some, true, length, replicate, slice_set, IfOk};
ghost use Rattle.components.specs.Reachability.{AreBelow};
ghost use Rattle.closed_walks.specs.Distances.{IsMarked, IsSweep, at};

use std::alloc::Global;
use tree::Memory;

/// Whether a number is known to be so many steps away.
pub(crate) fn has_steps(steps: &[Option<usize>], number: usize, count: usize) -> bool
    requires { number < length steps.now }
    ensures { (result ≡ true) ↔ (at steps.now number ≡ Some count) }
{
    match steps[number] {
        Some(known) => known == count,
        None => false,
    }
}

// One number more than it leads to, where that one has `count` steps and this one has none. Whether it was so.
fn mark(steps: &mut Vec<Option<usize>>, from: usize, to: usize, count: usize) -> bool
    requires from { from < length steps.old.items }
    requires to { to < length steps.old.items }
    requires small { count < length steps.old.items }
    ensures { IsMarked steps.old.items from to count steps.new.items result }
{
    if !has_steps(steps.as_slice(), to, count) {
        return false;
    }
    if steps[from].is_some() {
        return false;
    }
    steps[from] = Some(count + 1);
    true
}

/// Gives each number that leads to one of `count` steps `count + 1`, where it had none. Whether one did.
pub(crate) fn sweep(pairs: &[(usize, usize)], steps: &mut Vec<Option<usize>>, count: usize) -> bool
    requires below { AreBelow (length steps.old.items) pairs.now }
    requires small { count < length steps.old.items }
    ensures { IsSweep pairs.now count steps.old.items steps.new.items result }
{
    let mut any = false;
    for &(from, to) in pairs {
        let marked = mark(steps, from, to, count);
        any = any || marked;
    }
    any
}

/// What is known before the first sweep: the target is no step away from itself.
pub(crate) fn starting(alloc: Global, n: usize, target: usize) -> Result<Vec<Option<usize>>, Memory>
    requires { target < n }
    ensures { IfOk result (λ steps. steps.items ≡ slice_set (replicate n None) target (Some 0)) }
{
    let mut steps: Vec<Option<usize>> = vec![in alloc; None; n]?;
    steps[target] = Some(0);
    Ok(steps)
}
