//! The edges of a nest's dependence graph, as what orders of the nest's instances need of a graph.
ghost use Rattle.emission.specs.graph_orders.Laws.{ArcsAreEdges, GraphHasEdges};

/// The edges of a nest's dependence graph stand for each pair of instances that touch a common cell, one of them by its
/// left side (Allen and Kennedy, section 2.2).
pub fn graph_has_edges()
    ensures { GraphHasEdges }
{}

/// The level that orders see of an edge is the one that is listed.
pub fn arcs_are_edges()
    ensures { ArcsAreEdges }
{}
