//! Rewriting of nests by a rule, as that of trees.
//!
//! Proved (`rewrite_nest`): exactly what a rule makes of a nest (`made`). As the block that it runs as, the nest is
//! followed by what was made (`follows`), and a program of the profile stays one (`profile`), where the rule leaves the
//! increments of loops as they are. `rewrite_part`, `rewrite_parts`, `rewrite_stmt`, `rewrite_test`: the same of parts,
//! exactly.
#![tactic(auto)]

mod expressions;
mod nests;
mod parts;

pub use nests::{rewrite_nest, with_parts};
pub use parts::{rewrite_part, rewrite_parts, rewrite_stmt, rewrite_test};
