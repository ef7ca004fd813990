//! The strongly connected components of a relation in topological order.
//!
//! - Proved (`components`): the members are the classes of statements that reach one another, in topological order, the
//!   one with the least statement first where several may come (`classes`), and there is exactly one such order
//!   (`order_is_unique`, `order_has_components`).
//!
//! **The classes are found in one walk over the pairs** (`walk`), which keeps its own stacks, and are then put in order
//! (`rest`): for each class it is counted how many pairs still lead to it, and those to which none does wait in a set
//! whose least number is taken next. Time is linear in numbers and pairs but for that set, and memory is linear.
#![tactic(auto)]

mod classes;
mod laws;
mod ready;
mod rest;
mod rows;
mod tables;
mod walk;

pub use classes::{Order, components};
pub use laws::{order_has_components, order_is_unique};
