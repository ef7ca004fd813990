//! The kinds and the ranks of a Fortran 90 program's expressions (ISO/IEC 1539:1991, sections 4.5, 6.2, 7.1
//! and 13), and whether its names are declared.
//!
//! **f90_names::kinds::declarations** (`Names::of`, `find`): of each name exactly what its first declaration says.
//! `first_repeated`, `first_beyond_bounds`, `first_beyond_elements` and `first_beyond_names` find exactly the first
//! statement that declares a name again or passes a limit. `declarations` gives the declarations in byte order of
//! names, each once.
//!
//! Proved (`kind_of` and one function for each part of a statement): an expression has a kind and a rank exactly where
//! all in it suits (`HasKind`, `rank_of`); assignments, masks, conditions, lists, ALLOCATE and DEALLOCATE suit exactly
//! as defined; the names in a tree are known exactly where those of the phrase are (`tree_has_its_names` and its like).
pub mod declarations;
mod kinds;
mod known;
mod laws;
mod nodes;
mod statements;

pub use kinds::kind_of;
pub use known::{
    all_know_names, input_knows_names, is_declared, knows_names, output_knows_names,
    reference_knows_names,
};
pub use laws::{
    input_has_its_names, output_has_its_names, reference_has_its_names, tree_has_its_names,
    trees_have_their_names,
};
pub use nodes::Ranked;
pub use statements::{
    are_numbers, is_condition, is_integer_scalar, suits_allocation, suits_assignment,
    suits_deallocation, suits_input, suits_masked, suits_output,
};
