//! The statements that give the DO variables of a nest their last values, where its loops go from 1 by 1: behind all
//! loops, or in place (Allen and Kennedy, "Optimizing Compilers for Modern Architectures", section 4.2).
//!
//! **last_values::normal_forms**: `combination` is the sum of multiples of linear forms, exact place by place, and then
//! held against the limits. `normal_loop` gives the forms of a loop from 1 by 1 (its bounds, its trip, the value of its
//! variable, its last value) where they are within the limits, and None exactly elsewhere; `last_forms` those of the
//! last turn of the loops round it; further calls their texts. Laws in numbers stand above: a combination is the sum of
//! so many times each number (`combination_number`), a bound over counters is the source's bound where the variables
//! have the numbers of their forms (`bound_number`), and the variable is the lower bound and so many steps more, the
//! trip the quotient (`normal_loop_numbers`). The values of the texts in stores are `pass_laws::normal_values`'.
//!
//! Proved: exactly the statements of last values, over the forms and texts of `last_values::normal_forms`.
//! `after_block`: of a loop behind all loops, in one block IF on those surrounding trips that aren't positive
//! constants; None exactly where a surrounding trip but the outermost has a counter, or the forms leave the limits.
//! `add_parts_before`, `add_parts_behind`: the same in place, over the counters of the loops round it (`ok`); where
//! memory runs out nothing is added (`err`). `occurs_only_within`: exactly whether a name stands nowhere but in the
//! bodies of the loops of which it is the variable; the bounds of a loop stand outside its body. `stands_behind`:
//! whether all loops of a variable allow its last values behind all loops; `values_behind`: all such values in the
//! order of the loops. That they leave the values that the source's loops leave is `pass_laws::last_runs`'.
#![tactic(auto)]

mod behind;
mod endings;
mod in_place;
pub mod normal_forms;
mod occurrences;

pub use behind::{NestedLoop, stands_behind, values_behind};
pub use endings::after_block;
pub use in_place::{add_parts_before, add_parts_behind};
pub use occurrences::occurs_only_within;
