//! A closed walk for each number that has one.
ghost use Rattle.std.specs.Prelude.{◌≡◌, ◌<◌, ◌∷◌, [], IfOk, OnOk};
ghost use Rattle.std.specs.List.{concat};
ghost use Rattle.components.specs.Lists.{Each};
ghost use Rattle.components.specs.Reachability.{AreBelow};
ghost use Rattle.closed_walks.specs.Cycles.{Adds, AreCycles};

use crate::walks::closed_walk;
use std::alloc::Global;
use tree::{Memory, Seq};

// A walk with the number that it begins with.
fn with_start(alloc: Global, start: usize, over: &Seq<usize>) -> Result<Seq<usize>, Memory>
    ensures { IfOk result (λ walk. walk ≡ start ∷ over.now) }
{
    let mut walk = Vec::new(alloc);
    walk.push(start)?;
    walk.extend_from_slice(over.as_slice())?;
    Ok(Seq::from_vec(walk))
}

// Adds the walk of one number, if there is one.
fn add_cycle(
    alloc: Global,
    n: usize,
    pairs: &[(usize, usize)],
    start: usize,
    walks: &mut Seq<Seq<usize>>,
) -> Result<(), Memory>
    requires below { AreBelow n pairs.now }
    requires start { start < n }
    ensures { OnOk result (Adds pairs.now (start ∷ []) walks.old walks.new) }
{
    match closed_walk(alloc, n, pairs, start)? {
        Some(over) => walks.push(with_start(alloc, start, &over)?),
        None => Ok(()),
    }
}

// Adds those of the numbers of a class.
fn add_cycles(
    alloc: Global,
    n: usize,
    pairs: &[(usize, usize)],
    class: &Seq<usize>,
    walks: &mut Seq<Seq<usize>>,
) -> Result<(), Memory>
    requires below { AreBelow n pairs.now }
    requires members { Each (λ a. a < n) class.now }
    ensures { OnOk result (Adds pairs.now class.now walks.old walks.new) }
{
    for &start in class.as_slice() {
        add_cycle(alloc, n, pairs, start, walks)?;
    }
    Ok(())
}

/// For each number of the classes from which a closed walk leads, the least of its shortest ones, with the number first
/// and last, in the order of the numbers. The numbers below `n` are the nodes of the graph, and the pairs its edges: an
/// edge that is to be no step of a walk is left out.
pub fn cycles(
    alloc: Global,
    n: usize,
    pairs: &[(usize, usize)],
    classes: &Seq<Seq<usize>>,
) -> Result<Seq<Seq<usize>>, Memory>
    requires below { AreBelow n pairs.now }
    requires members { Each (λ c. Each (λ a. a < n) c) classes.now }
    ensures { IfOk result (λ walks. AreCycles pairs.now (concat classes.now) walks) }
{
    let mut walks = Seq::new(alloc);
    for class in classes.as_slice() {
        add_cycles(alloc, n, pairs, class, &mut walks)?;
    }
    Ok(walks)
}
