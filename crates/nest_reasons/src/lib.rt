//! Why a loop is no nest: what stands in it that keeps it from being vectorised (Allen and Kennedy, "Optimizing
//! Compilers for Modern Architectures", sections 2.2 and 4.2).
//!
//! Proved (`Check::any_in_stmt`): for each flaw, exactly whether a loop, or one in it, has it: it is left, halts or
//! does input or output; a loop stands in an IF of its body or between a GO TO and its label; a bound isn't linear over
//! the symbols and the variables of the loops round it; its increment isn't a constant other than 0 of size up to 2^31;
//! seven loops stand round it. `is_large`: exactly whether it has more than 200 assignments, more than 400 occurrences
//! of variables other than those of its loops, or more than 200 conditions, GO TOs and loops in it together.
//! `symbols_of`: exactly the INTEGER scalars that a loop doesn't write, in the order of the declarations. `step_of`:
//! the value of a suitable increment, and none exactly where it isn't one.
//!
//! **Bounds under many loops.** A linear form has at most seven loops. Those counted are the loop variables that stand
//! in the bound as it is written, so a bound under eight loops of which it names two is linear or not by these two. A
//! bound that names eight loop variables isn't linear, even if some cancel.
//!
//! **Labels and loops.** "Between a GO TO and its label" is looked for among what stands in one loop's own body. A GO
//! TO whose label is elsewhere makes the loop one that is left, and that reason comes first.
//!
//! **DO variables in the size of a loop.** The variables of the loop looked at and of the loops in it don't count; the
//! variable of a loop round it does.
//!
//! **Conditions, GO TOs and inner loops count together**, since masks over the jumps that are under way make text that
//! is quadratic in their number, and an inner loop whose variable is read behind it has its last value written in
//! place.
//!
//! **Flaws of loops, and limits that loops leave, are looked for by two walks.** Both go down the statements alike; but
//! to what is within a loop one hands its variable and the other its form, which it has to make and to keep small, so
//! one walk for both would be a trait with more members than the walk has branches.
#![tactic(auto)]

mod flaws;
mod increments;
mod labels;
mod loops;
mod marks;
mod names;
mod sizes;
mod symbols;

pub use flaws::{Flaw, loop_in_if};
pub use increments::step_of;
pub use labels::{exits, jumps_over_loop};
pub use loops::Check;
pub use marks::{Mark, marks_of};
pub use names::standing;
pub use sizes::{Piece, is_large};
pub use symbols::symbols_of;
