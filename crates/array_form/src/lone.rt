//! Array forms in the place of a nest's inner loops.
//!
//! Proved (law): where the inner loops of a statement, maybe under a guard, have turns of their own, and its instances
//! there may store all at once, its instances as `array_form::forms` has them lead to the same store, none of them
//! reading what an earlier one has written (`instances_in_inner_loops`); in a store in which the nest is run, loop
//! variables and symbols round the statement hold numbers as `array_form::forms` asks for (`known_numbers`); the
//! references of a statement that `array_form::holds` finds safe name cells in each of its instances
//! (`safe_statements`), where the sequential run of the nest goes on and made arrays are as large as their references
//! ask; so its array form, where nothing in the inner loops forbids it and guard and right side are regular, goes on
//! where the instances do and leaves their store (`array_form_in_nest`), which is what `nest_order::runs`
//! (`lone_forms`) asks of forms that keep the meaning of the nest.
//!
//! **What safe statements rest on has no store in it.** An unguarded statement's instances named cells in the
//! sequential run; the cells that may be named are the same in each store in which the nest may be run, so the second
//! store of the laws on forms asks no run of its own.
mod laws;

pub use laws::{array_form_in_nest, instances_in_inner_loops, known_numbers, safe_statements};
