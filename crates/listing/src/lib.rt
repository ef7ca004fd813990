//! The listing of a program: its nests with their graphs and holds, and the loops that are kept.
#![tactic(auto)]

pub mod arrays;
pub mod graphs;
pub mod programs;
