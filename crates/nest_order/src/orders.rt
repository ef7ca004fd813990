//! Orders of the instances of a nest that keep its dependences.
//!
//! Proved (laws): a sequential run of a nest comes to each of its instances once, in sequential order
//! (`instances_in_sequence`); edges lead forward in that order, which so keeps them (`edges_in_sequence`: `follow`,
//! `keeps`); recursive emission, by whatever classes are components at each level, puts each statement once into its
//! own loops, and its instances into an order that keeps the edges (`recursive_emission`: `arranges`, `keeps`). That
//! any order that keeps the edges gives the same run, for actions on any type of stores, is a lemma there
//! (`any_order`), since a contract speaks of one type of stores at a time.
//!
//! **Recursive emission is a relation.** Of shapes and classes it says which shape is emitted for which classes
//! (`IsEmitted`), by structure of the shape. A function of a table of components for all lists of statements would ask
//! for classes of lists that never come up, and for a bound on the depth.
//!
//! **A component stands in the next loop of any one of its statements.** That all of them have it is a theorem, so a
//! program has to look at one statement alone.
//!
//! **What orders need of a graph is stated without a list of what was dropped.** Each candidate that has a pair stands
//! in an edge. Where a graph lists what has no pair, this follows.
ghost use Rattle.nest_order.specs.orders.Laws.{EdgesFollowSequence, EmissionArranges, EmissionKeepsEdges};
ghost use Rattle.nest_order.specs.orders.Laws.{InstancesInSequence, SequenceKeepsEdges};

/// A sequential run of a nest comes to each instance once, in sequential order.
pub fn instances_in_sequence()
    ensures { InstancesInSequence }
{}

/// Dependences lead forward in sequential order, which so keeps the edges.
pub fn edges_in_sequence()
    ensures follow { EdgesFollowSequence }
    ensures keeps { SequenceKeepsEdges }
{}

/// Recursive emission, with whatever classes that are components at each level, puts each statement once into its own
/// loops, and its instances into an order that keeps the edges.
pub fn recursive_emission()
    ensures arranges { EmissionArranges }
    ensures keeps { EmissionKeepsEdges }
{}
