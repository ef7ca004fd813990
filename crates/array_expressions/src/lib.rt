//! Expressions of Fortran 90, over what names hold: the values of scalars, arrays whose operations are left to each
//! position, constructors with their loops, and what references select (ISO/IEC 1539:1991, sections 4.5, 6.2, 7.1 and
//! 13).
//!
//! Proved: a `Scope` is a storage; the variables of the constructor's loops that are being gone through are a list
//! beside it, and `store_at` is the meaning's store with all of them (`bound_to`, the outermost first). Proved, with no
//! premise:
//!
//! - `number_of`: the innermost variable of a name, or none (`Holds`: what the scalar's cell holds in any store under
//!   these loops).
//! - `held`: exactly `cell_at` and what the cell holds there, with the first fault. `whole`: exactly the array of all
//!   values of a name, in whose place a loop's variable may stand.
//! - `is_scalar`, `is_scalar_item`: exactly `is_scalar` of the meaning, for any tree.
//! - `call`, `counts`, `not_negative`, `listed`, `all_numbers`, `selector_of`: exactly the functions of the meaning.
//!
//! Expressions are evaluated exactly by their definitions, where memory suffices: `value` gives a scalar's value or the
//! first fault; `array` an array whose operators and elemental functions are left to each position, with subscripts,
//! constructors and arguments of array functions evaluated in whole; `in_whole` and `known` all elements; `selected`
//! what a reference selects; `numbers`, `selectors` and `values` lists from left to right. A constructor's values come
//! with its last loop outermost, each variable with a value of its own, and a number that INTEGER can't hold is a fault
//! when it is reached. No premise on kinds or depth. Neither time nor stack is proved.
//!
//! **The width of INTEGER is an argument**, since MAXVAL and MINVAL of nothing and the variables of constructors depend
//! on it.
//!
//! **The variables of constructors' loops are a list beside the store, and each turn has its own.** Values of a
//! constructor are put behind one list as they come, so no list is made for each turn.
#![tactic(auto)]

mod arrays;
pub mod assignments;
mod constructors;
mod locals;
mod numbers;
mod ranks;
mod references;
mod scope;
pub mod transfers;
mod values;

pub use locals::{Local, number_of};
pub use numbers::{all_numbers, call, counts, listed, not_negative, selector_of};
pub use scope::Scope;
