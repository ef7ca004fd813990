//! Names in texts of Fortran 90: their declarations and kinds, and the calls of functions.
#![tactic(auto)]

pub mod calls;
pub mod kinds;
