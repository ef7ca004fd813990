//! Recursive emission of a nest (Allen and Kennedy, "Optimizing Compilers for Modern Architectures", section 2.4,
//! "codegen"): its statements in classes at each level, as array assignments or within loops.
//!
//! Proved (`emit`): what is answered is an emission of the nest by its graph and its holds (`IsEmission`): at each
//! level the components in topological order, of several that may come next the one with the least statement; a
//! statement in its last loop as it is, with its guard as an IF round it; one that may be formed in array form; any
//! other class in its loop of that level; marks, ALLOCATE and DEALLOCATE of made arrays, and what runs after the nest.
//! Asked (`MayBeEmitted`): at most seven loops round a statement, their trips in linear form, fewer than 65536 symbols,
//! as many statements as the graph counts, and edges that lead in the nest, as `emission::graph_edges` has it of each
//! graph; so the loop of a class that has to turn is there, and emission ends. The crate has no tests.
mod alone;
mod blocks;
mod classes;
mod loop_cycles;
mod pairs;
mod source;
mod translation;

pub use loop_cycles::cycles;
pub use translation::emit;
