//! The Delta test of coupled subscript pairs (Goff, Kennedy and Tseng, "Practical Dependence Testing", PLDI 1991,
//! section 5; Allen and Kennedy, "Optimizing Compilers for Modern Architectures", chapter 3): what is known of the two
//! iterations of one loop, the table by which two such constraints meet, and the least pair of iterations that one
//! leaves; what the lines of a group's members say of each loop, with points and distances put into the other members;
//! and the test of a group.
//!
//! - Proved (`test_group`): *never* means no pair of iterations of all members (`never`), and with one loop of a
//!   constant trip none in the cut bounds either (`exact`); a pair that is given is the least one (`pair`); *assumed*
//!   comes only where no loop decides alone and neither GCD nor range refutes a member (`assumed`). The meet of two
//!   constraints allows exactly what both allow (`meet_of`); the least point that a constraint leaves (`least_left`),
//!   and that it leaves none (`leaves_none`). Where `constraints_refute` answers yes, no pair of iterations of all
//!   members exists. Iterations that make both sides of all members equal keep each loop's constraint
//!   (`learned_of_all`); where constraints are kept, both sides of a member differ by as much as those of the member
//!   with points and distances put in (`reduced_by`); what is left of that is a constant, or a line on which the
//!   iterations lie (`left_of`). When it answers yes is shown by tests.
//!
//! **The Delta test is one crate.** Constraints on a loop's iterations, what a group's members say of their loops, and
//! the test of a group are one section of the paper, and what takes constraints by themselves
//! (`direction_vectors::vector_tests`) calls the test too. What the SIV tests need as well, lines and their points,
//! stands below.
//!
//! **Of the Delta test outside one loop it is stated that what it drops has no pair.** Which groups it drops follows
//! from an order of members and a number of passes; a definition of that would be the code's loop again. Tests against
//! another program show it, and a decision by trying all iterations that nothing is dropped wrongly.
//!
//! **A distance is put for the second iteration.** The range test then looks at the first one over the direction's
//! whole region, so exchanging the references may change whether a group is dropped; with the exact classes it doesn't.
//! A finer region would be a second definition of regions.
//!
//! **A loop round one reference alone has a point whose other number is 1.** So one table of meets, one test of what a
//! constraint leaves and one way of putting a point serve all loops.
mod constraint;
mod constraints;
mod group;
mod iterations_left;
mod learn;
mod left;
mod one_loop;
mod put;
mod refute;

pub use constraint::{Constraint, meet_of};
pub use group::test_group;
pub use iterations_left::{constraint_of, least_left};
