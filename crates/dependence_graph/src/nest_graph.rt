//! Definitions of dependence in nests: the references of a statement, the instances of a nest, which cells a reference
//! may touch, candidates and their pairs, and which lists of edges and drops are the graph of a nest (Allen and
//! Kennedy, "Optimizing Compilers for Modern Architectures", chapter 2). No pass stands on this crate.
//!
//! - Proved (definitions, law): the references of a nest's statements, what each may touch, candidates with their
//!   vectors, pairs of instances, and which edges and drops are the graph of a nest (`IsGraphOf`). In such a graph each
//!   candidate stands in an edge or a drop, a dropped one has no pair, and each edge has the level of its vector
//!   (`graph_is_complete`). Which nests are tested is `IsReady`; `dependence_graph::dep_graph` makes the graph.
//!
//! **A graph is said of a nest and two references.** The records of the tests, which have seven places for loops,
//! directions and iterations, stand in no definition of a graph. That what the tests promise says the same is proved
//! (`dep_graph`, from Directions to Wording), in one direction: from an answer of the tests to a right one.
//!
//! **Instances meet where iterations do.** A pair of instances, filled up with 1 to seven places, is a pair of
//! iterations at which the references meet, and in the exact class the other way too. The least pair of the one is that
//! of the other, since what is filled in is the same on both sides.
ghost use Rattle.dependence_graph.specs.nest_graph.Complete.{GraphIsComplete};

/// The graph of a nest has what an order of its instances needs.
pub fn graph_is_complete()
    ensures { GraphIsComplete }
{}
