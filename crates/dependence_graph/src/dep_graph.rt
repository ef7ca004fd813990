//! The dependence graph of a nest: each two references of one name, of which one is written, are tested in all their
//! direction vectors (Allen and Kennedy, "Optimizing Compilers for Modern Architectures", chapters 2 and 3).
//!
//! - Proved (`graph`): for each nest that can be tested, what is given is a graph of it (`IsGraphOf`): each two
//!   references of one name, one of them written, in each order, once, in the order of the references and then of the
//!   vectors; their answers stand for each candidate vector exactly once and for candidates alone, merged; a dropped
//!   vector has no pair of instances that touch a common cell, whatever the symbols are; an edge with a pair stands in
//!   the exact class, each vector that it stands for has a pair, and the one given is the least; an edge without stands
//!   outside that class and for no vector that is refuted; words and levels. Want of memory is the only error.
//!
//! **More statements, or references of one statement, than 32 bits count are answered as want of memory.**
mod graphs;
mod lines;
mod pairs;
mod vectors;

pub use graphs::graph;
