//! The strongly connected components of a directed graph.
ghost use Rattle.std.specs.Prelude.{◌≡◌, [], IfOk};
ghost use Rattle.components.specs.Labels.{AreLabels};
ghost use Rattle.components.specs.Orders.{IsOrder};
ghost use Rattle.components.specs.Reachability.{AreBelow};

use crate::rest::Rest;
use crate::tables::{Tables, counts_of, pairs_between};
use crate::walk::class_numbers;
use std::alloc::Global;
use tree::{Memory, Seq};

/// Classes of numbers in an order, and closed walks through the members of those that are cyclic.
#[derive(Drop)]
pub struct Order {
    pub members: Seq<Seq<usize>>,
    pub cycles: Seq<Seq<usize>>,
}

// Classes by their numbers, each as soon as nothing that is still to come leads to it.
fn in_order(
    alloc: Global,
    n: usize,
    pairs: &[(usize, usize)],
    labels: &[usize],
    count: usize,
) -> Result<Seq<Seq<usize>>, Memory>
    requires pairs { AreBelow n pairs.now }
    requires labels { AreLabels n pairs.now count labels.now }
    ensures { IfOk result (λ classes. IsOrder n pairs.now classes) }
{
    let between = pairs_between(alloc, pairs, labels)?;
    let tables = Tables::new(alloc, count, labels, between.as_slice())?;
    let counts = counts_of(alloc, count, between.as_slice())?;
    let mut rest = Rest::new(alloc, &tables, counts)?;
    let mut classes = Seq::new(alloc);
    'classes: loop {
        let next = rest.next_class(alloc, labels, &tables)?;
        let Some(class) = next else {
            return Ok(classes);
        };
        classes.push(class)?;
    }
}

/// The strongly connected components of the directed graph that has the numbers below `n` as its nodes and the pairs as
/// its edges, in topological order (Tarjan, "Depth-first search and linear graph algorithms", 1972). Where several may
/// come next, the one with the least member does. The list of cycles is empty for now.
pub fn components(alloc: Global, n: usize, pairs: &[(usize, usize)]) -> Result<Order, Memory>
    requires { AreBelow n pairs.now }
    ensures classes { IfOk result (λ order. IsOrder n pairs.now order.members) }
    ensures cycles { IfOk result (λ order. order.cycles ≡ []) }
{
    let all = class_numbers(alloc, n, pairs)?;
    let members = in_order(alloc, n, pairs, all.labels.as_slice(), all.count)?;
    Ok(Order {
        members,
        cycles: Seq::new(alloc),
    })
}
