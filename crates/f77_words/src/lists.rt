//! The lists of PRINT and READ, and DO variables with their parameters (ANSI X3.9-1978, 11.10 and 12.8.2).
//!
//! Proved (`read_items`, `read_inputs`): words are read as a list of PRINT or READ, with implied DO lists nested to any
//! depth, exactly where they are so written (`found`, `only`).
//!
//! **Lists of declarations nest from the front, lists of items and of subscripts from the back.** Each is read in its
//! own direction: a loop that goes from comma to comma, or a stack of what is open.
mod controls;
mod items;
mod lists;
mod reader;

pub use controls::{DoControl, whole_control};
pub use items::{read_inputs, read_items};
pub use lists::ItemList;
