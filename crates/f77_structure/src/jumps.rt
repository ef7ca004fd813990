//! Jumps, DO variables and the depth of blocks in a FORTRAN 77 program, checked (ANSI X3.9-1978, section 11).
//!
//! Each check gives the first statement at which its cause of refusal holds, or none where it holds nowhere.
//!
//! Proved: with a wrong GO TO (`wrong_jump`), a wrong DO variable (`wrong_do_variable`), the 101st block
//! (`many_blocks`).
mod blocks;
mod do_variables;
mod jumps;
mod targets;

pub use blocks::many_blocks;
pub use do_variables::wrong_do_variable;
pub use jumps::wrong_jump;
