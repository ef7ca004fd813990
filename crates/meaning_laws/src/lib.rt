//! Laws of what programs mean: those of both profiles, of one dialect beside the other, of arrays and of input;
//! worked programs.
#![tactic(auto)]

pub mod arrays;
pub mod dialects;
pub mod inputs;
pub mod profiles;
pub mod worked_programs;
