//! Nests: trees of loops, guarded statements, IFs, labels and jumps, on which dependence is looked at.
//!
//! Proved (`Nest::copy`, `Part::copy`, `Loop::copy`, `GuardedStmt::copy`, `Made::copy`, `copy_ref`, `copy_exprs`,
//! `copy_decl`, `copy_decls`, `copy_parts`): a copy has the plain tree of what was copied. The plain nests that all
//! later crates speak of stand here, with the lists of what stands in them in the order of the text (`statements_of`,
//! each with the loops round it from the outside in; `loops_of`) and the statements that a nest stands for as it is run
//! (`block_of_nest`).
//!
//! **Lines in nests.** A nest keeps its own line and those of its assignments. Its loops, IFs and jumps keep none: the
//! statements that the nest stands for have the nest's line there. A run doesn't look at lines but in the line of a
//! fault.
//!
//! **Increments in nests.** A loop of a nest keeps the value of its increment, not its expression, since only loops
//! with a constant increment are in nests. As a statement the value stands as a literal, or as the negative of one.
//!
//! **Nests are taken by reference and copied.** A function that moves fields out of a `Nest` outgrows the prover's
//! memory.
#![tactic(auto)]

mod nests;
mod parts;
mod references;
pub mod statement_loops;

pub use nests::{Made, Nest};
pub use parts::{GuardedStmt, Loop, NestArm, Part, Trip, copy_parts};
pub use references::{copy_exprs, copy_ref};
