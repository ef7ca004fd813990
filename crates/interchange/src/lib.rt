//! Loop interchange: a loop that carries a dependence moves outwards to where none is carried (Allen and Kennedy,
//! "Optimizing Compilers for Modern Architectures", section 5.2).
//!
//! - Proved (`arrange`): exactly the nest with its loops moved (`with_moved_loops`), or that no loop moves. Proved
//!   (`vectors_of`): the direction vectors of all edges of a graph but antidependences of a statement on itself.
//! - Proved (laws): the order of the loops comes about by moves outwards, each of a loop that may move, and keeps all
//!   vectors where the first order did (`order_of_loops`); a nest that has a chain is that chain (`chains_are_loops`);
//!   the orders of three loops, worked (`worked_orders`). That the meaning is kept follows from `interchange_laws`, and
//!   is said of prepared nests in `prepared_passes`.
//!
//! **Which nests.** All statements stand in the innermost loop of a single chain of loops, no trip has a loop's
//! variable in it, and a statement that reads the array that it writes reads just the element that it writes: the
//! subscripts are the same linear forms. By the last rule an antidependence of a statement on itself has the vector of
//! its output dependence on itself, so the vectors of such edges needn't be looked at.
//!
//! **How the order comes about.** From the outermost place inwards: where the loop there carries no dependence, the
//! first loop behind it that does is moved there, if in every vector `<` is then still the first entry other than `=`
//! (`*` counts as `>`), and if no trip is come to that the given nest wouldn't count. A loop that isn't fit is passed
//! over, and the next one is looked at.
//!
//! **An order is a list of places.** The loops and the vectors stay as they are; what is moved is a place in the list.
//! So the directions of a vector in an order are looked up, and each vector is judged as a whole after each move.
#![tactic(auto)]

mod chains;
mod directions;
mod edges;
mod laws;
mod nests;
mod orders;
mod reads;
mod trips;

pub use edges::vectors_of;
pub use laws::{chains_are_loops, order_of_loops, worked_orders};
pub use nests::arrange;
