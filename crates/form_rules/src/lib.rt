//! Rules of a normal loop: its variable becomes a linear form, and linear forms are brought into canonical text.
//!
//! Proved (`Canonical`, `Replacement`): two rules of `rewrite`. By the first each node becomes its canonical text, from
//! the leaves up, in which a loop's variable stood as it was first written and which is linear as it is now; its two
//! stores have everything in common. By the second an expression stands for a scalar variable that the first run alone
//! has, where a new name is the second run's alone. `Canonical` hands what is known of a part (its constant, its form,
//! whether a loop's variable stood in it) to the node round it; that this gives exactly the canonical text of each node
//! is proved. That its time is linear in the tree is only measured.
#![tactic(auto)]

mod canonical;
mod nodes;
mod replacement;
mod trees;

pub use canonical::Canonical;
pub use replacement::Replacement;
