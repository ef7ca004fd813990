//! Which references may be copied, by the graph.
ghost use Rattle.std.specs.Prelude.{◌≡◌, ◌≤◌, ◌<◌, ◌^◌, ◌↔◌, ◌∷◌, ◌++◌, ◌&&◌, [], ℕ, true, IfOk, OnOk};
ghost use Rattle.components.specs.Reachability.{AreBelow};
ghost use Rattle.components.specs.Orders.{IsOrder};
ghost use Rattle.node_splitting.specs.Choice.{are_together, fed_in, feeds, has, is_anti, is_flow, is_listed, is_place};
ghost use Rattle.node_splitting.specs.Choice.{MayBeCopied, overwrites, overwritten_in, pairs_of};
ghost use Rattle.node_splitting.specs.View.{may_of};
ghost use Rattle.dependence_graph.specs.declared.graphs.Place.{Place as Spot};

use components::components;
use dependence_graph::graphs::{Dep, Edge, Place};
use std::alloc::Global;
use tree::{Memory, Seq};

/// References from which antidependences lead to other statements of their components, and those to which flow
/// dependences lead within a component.
#[derive(Drop)]
pub(crate) struct Choice {
    pub overwritten: Seq<Place>,
    pub fed: Seq<Place>,
}

fn is_listed(places: &[Place], place: Place) -> bool
    ensures { result ≡ is_listed places.now place }
{
    places
        .iter()
        .any(|other| other.stmt == place.stmt && other.at == place.at)
}

impl Choice {
    /// Whether a reference may be copied.
    pub(crate) fn may_be_copied(&self, place: Place) -> bool
        ensures { result ≡ may_of self.now place }
    {
        is_listed(self.overwritten.as_slice(), place) && !is_listed(self.fed.as_slice(), place)
    }
}

// ---- components

fn pairs_of(alloc: Global, edges: &[Edge]) -> Result<Seq<(usize, usize)>, Memory>
    ensures { IfOk result (λ pairs. pairs ≡ pairs_of edges.now) }
{
    let mut pairs = Seq::new(alloc);
    for edge in edges {
        pairs.push((edge.from.stmt as usize, edge.to.stmt as usize))?;
    }
    Ok(pairs)
}

// A number above both.
fn above(bound: usize, from: usize, to: usize) -> usize
    requires from { from < 2 ^ 32 }
    requires to { to < 2 ^ 32 }
    ensures bound { bound ≤ result }
    ensures from { from < result }
    ensures to { to < result }
{
    bound.max(from + 1).max(to + 1)
}

// A number above those of all statements.
fn count_of(edges: &[Edge]) -> usize
    ensures { AreBelow result (pairs_of edges.now) }
{
    let mut bound = 0;
    for edge in edges {
        bound = above(bound, edge.from.stmt as usize, edge.to.stmt as usize);
    }
    bound
}

// The components of the statements, in the outermost loop.
fn classes_of(alloc: Global, edges: &[Edge]) -> Result<Seq<Seq<usize>>, Memory>
    ensures { IfOk result (λ classes. (n : ℕ) × AreBelow n (pairs_of edges.now)
        × IsOrder n (pairs_of edges.now) classes) }
{
    let pairs = pairs_of(alloc, edges)?;
    let order = components(alloc, count_of(edges), pairs.as_slice())?;
    Ok(order.members)
}

fn has(class: &[usize], stmt: usize) -> bool
    ensures { result ≡ has class.now stmt }
{
    class.iter().any(|other| *other == stmt)
}

fn has_both(class: &Seq<usize>, one: usize, other: usize) -> bool
    ensures { result ≡ (has class.now one && has class.now other) }
{
    has(class.as_slice(), one) && has(class.as_slice(), other)
}

fn are_together(classes: &[Seq<usize>], one: usize, other: usize) -> bool
    ensures { result ≡ are_together classes.now one other }
{
    classes.iter().any(|class| has_both(class, one, other))
}

// ---- edges

fn is_anti(kind: Dep) -> bool
    ensures { result ≡ is_anti kind }
{
    match kind {
        Dep::Anti => true,
        Dep::Flow | Dep::Output => false,
    }
}

fn is_flow(kind: Dep) -> bool
    ensures { result ≡ is_flow kind }
{
    match kind {
        Dep::Flow => true,
        Dep::Anti | Dep::Output => false,
    }
}

fn leads_within(classes: &[Seq<usize>], edge: &Edge) -> bool
    ensures { result ≡ are_together classes.now edge.now.from.stmt edge.now.to.stmt }
{
    are_together(classes, edge.from.stmt as usize, edge.to.stmt as usize)
}

fn overwrites(classes: &[Seq<usize>], edge: &Edge) -> bool
    ensures { result ≡ overwrites classes.now edge.now }
{
    is_anti(edge.kind) && edge.to.stmt != edge.from.stmt && leads_within(classes, edge)
}

fn feeds(classes: &[Seq<usize>], edge: &Edge) -> bool
    ensures { result ≡ feeds classes.now edge.now }
{
    is_flow(edge.kind) && leads_within(classes, edge)
}

#[tactic(auto, using(crate::proofs::Choices::place_laws))]
fn add_overwritten(
    classes: &[Seq<usize>],
    edge: &Edge,
    places: &mut Seq<Place>,
) -> Result<(), Memory>
    ensures { OnOk result (places.new ≡ places.old ++ overwritten_in classes.now (edge.now ∷ [])) }
{
    if overwrites(classes, edge) {
        places.push(edge.from)?;
    }
    Ok(())
}

#[tactic(auto, using(crate::proofs::Choices::place_laws))]
fn add_fed(classes: &[Seq<usize>], edge: &Edge, places: &mut Seq<Place>) -> Result<(), Memory>
    ensures { OnOk result (places.new ≡ places.old ++ fed_in classes.now (edge.now ∷ [])) }
{
    if feeds(classes, edge) {
        places.push(edge.to)?;
    }
    Ok(())
}

fn overwritten_in(
    alloc: Global,
    classes: &[Seq<usize>],
    edges: &[Edge],
) -> Result<Seq<Place>, Memory>
    ensures { IfOk result (λ places. places ≡ overwritten_in classes.now edges.now) }
{
    let mut places = Seq::new(alloc);
    for edge in edges {
        add_overwritten(classes, edge, &mut places)?;
    }
    Ok(places)
}

fn fed_in(alloc: Global, classes: &[Seq<usize>], edges: &[Edge]) -> Result<Seq<Place>, Memory>
    ensures { IfOk result (λ places. places ≡ fed_in classes.now edges.now) }
{
    let mut places = Seq::new(alloc);
    for edge in edges {
        add_fed(classes, edge, &mut places)?;
    }
    Ok(places)
}

/// Which references may be copied, by these edges.
pub(crate) fn choice_of(alloc: Global, edges: &[Edge]) -> Result<Choice, Memory>
    ensures { IfOk result (λ choice. (p : Spot) → (may_of choice p ≡ true) ↔ MayBeCopied edges.now p) }
{
    let classes = classes_of(alloc, edges)?;
    let overwritten = overwritten_in(alloc, classes.as_slice(), edges)?;
    let fed = fed_in(alloc, classes.as_slice(), edges)?;
    Ok(Choice { overwritten, fed })
}
