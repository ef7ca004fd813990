//! What a machine that runs programs is made of: the values of names in one list, places of elements, the words of the
//! input, texts of values, loop control, steps, and how far a run is.
//!
//! Proved: the opening store (`Storage::new`), the place of an element or Allocated or Bounds (`place`), one value read
//! or stored (`value`, `put`), steps under a limit (`count_step`), the words of READ's input, the text of values and of
//! the final store, each exactly as the definitions of runs have it, for both dialects.
//!
//! **The machine's store is one list of values, not a map.** The place of an element is found by its name and
//! subscripts: a table of names (`indexmap`), which keeps the order of declarations, has each name's declaration and
//! the place of its first value. So a change of a value takes no memory, the definition's store is one function of the
//! list, and what is stated of a run is an equation of stores.
//!
//! **Laws on acts speak of what is seen of a machine.** Names, store and progress (`Seen`), not a machine's struct: so
//! the machine of Fortran 90 can cite them as they stand.
#![tactic(auto)]

mod cells;
mod final_store;
mod input;
mod items;
mod jumps;
mod opening;
mod progress;
mod steps;
mod storage;
mod subscripts;
mod texts;
mod variables;

pub use final_store::write_lines;
pub use input::read_value;
pub use items::name_in;
pub use jumps::passed;
pub use progress::{Halt, Left, Progress, ended};
pub use steps::{Turns, add, at, check_range, increment, trip_count};
pub use storage::Storage;
pub use subscripts::{Subscripts, offset};
pub use texts::{write_output, write_outputs, write_value};
pub use variables::{Variable, dims_of, elements};
