//! Shortest closed walks in a directed graph: the witness that a number isn't alone in its component.
//!
//! - Proved (`closed_walk`): the shortest closed walk from a number, the least in the order of numbers among those that
//!   are as short, or that there is none. Proved (`cycles`): of each number of given classes from which a closed walk
//!   leads, this walk, in the order of the numbers, and no other walk.
//! - Proved (laws): a component's closed walks stay in it, and each of its members has one where there are two of them
//!   (`walks_in_components`); only one walk is the least of the shortest ones (`least_walk_is_unique`). Pairs of a
//!   number with itself change no order of components (`own_pairs`), so they may be left out of the steps of walks. The
//!   component of a statement level by level, each within the one before, is what closed walks of all edges at work at
//!   the level join it to (`flat_components`).
//!
//! **Distances are found backwards.** Sweep by sweep each number that leads to one whose distance to the start is known
//! gets one step more, until the start itself leads to a number so found. From there the walk goes on to the least
//! number with one step less, which is the least of all shortest walks. A sweep that finds nothing new says that there
//! is no walk. Time is the number of pairs for each step of the walk.
#![tactic(auto)]

mod distances;
mod laws;
mod member_walks;
mod walks;

pub use laws::{flat_components, least_walk_is_unique, own_pairs, walks_in_components};
pub use member_walks::cycles;
pub use walks::closed_walk;
