//! The array form of a statement of a nest (Allen and Kennedy, "Optimizing Compilers for Modern Architectures",
//! section 2.4).
//!
//! Proved (`array_form`): exactly the array form that `array_form::forms` defines, for a statement of a nest, maybe
//! under a guard, at a level from 1 to the number of its loops, with its mark (`array_form_at`): a guard in which a
//! loop from the level on stands makes a WHERE, another one an IF round the assignment, and the IF on trips stands
//! round both. Asked: fewer than 65536 symbols, trips in linear form (`HasArrayForm`). That no hold stands there isn't
//! asked: the text is defined without it, and emission heeds it. The crate has no tests.
//!
//! **A hold is no premise of `array_form`.** The text is defined without it; emission alone heeds holds. The number of
//! the nest comes from the nest.
#![tactic(auto)]

mod conditions;
mod constructors;
mod expressions;
pub mod forms;
pub mod holds;
pub mod lone;
mod loops_in_text;
mod placing;
pub mod profile;
mod section_bounds;
mod statements;
mod trips;

pub use statements::{array_form, statement_form};
