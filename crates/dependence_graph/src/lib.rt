//! The dependence graph of a nest (Allen and Kennedy, "Optimizing Compilers for Modern Architectures", chapter 2).
#![tactic(auto)]

pub mod dep_graph;
pub mod graphs;
pub mod loop_spans;
pub mod nest_graph;
pub mod nest_ready;
pub mod nest_references;
pub mod worked_graphs;
