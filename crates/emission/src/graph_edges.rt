//! The edges of a nest's graph lead in the nest, so that what is emitted by them is an order that keeps them.
ghost use Rattle.emission.specs.graph_edges.Laws.{EdgesLeadInNest, GraphEmissionKeepsOrder};

/// A loop that carries an edge stands round both statements, and a loop independent edge leads forward in the text
/// (Allen and Kennedy, section 2.2).
pub fn edges_lead_in_nest()
    ensures { EdgesLeadInNest }
{}

/// What is emitted for a nest by its dependence graph has each statement once, in its own loops, and an order of the
/// instances that keeps the graph's edges.
pub fn graph_emission_order()
    ensures { GraphEmissionKeepsOrder }
{}
