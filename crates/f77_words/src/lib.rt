//! Lists of READ and PRINT, and how a statement of FORTRAN 77 is recognised.
#![tactic(auto)]

pub mod keywords;
pub mod lists;
