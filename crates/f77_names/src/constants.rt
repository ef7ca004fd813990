//! The values of symbolic constants, bounds and the limits on them (ANSI X3.9-1978, sections 5.1, 6.7 and 8.6).
//!
//! Each check gives the first statement at which its cause of refusal holds, or none where it holds nowhere.
//!
//! Proved: the values of symbolic constants (`constants_of`), and the first statement with bounds turned round, too
//! many elements, or a constant or bound without value (`reversed_bounds`, `many_elements`, `bad_constant`). Each is
//! exactly as its definition, for any list of statements, by the names, ends of loops and constants of these
//! statements, which are lent.
//!
//! **The table of constants is an equation with the definition's store.** The store of all symbolic constants is a
//! function in the definitions. The table in the code is proved to be that function, so that what is shown of a value
//! at the one is carried to the other at once.
mod bounds;
mod checks;
mod constants;
mod declarations;
mod operations;
mod values;

pub use checks::{bad_constant, many_elements, reversed_bounds};
pub use constants::{Constants, constants_of};
pub use declarations::declarations_of;
