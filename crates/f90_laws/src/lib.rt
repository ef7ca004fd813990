//! Laws of texts of Fortran 90: what is printed, what is read, and that a text has one answer.
#![tactic(auto)]

pub mod blocks;
pub mod printed;
pub mod read_back;
pub mod readings;
pub mod unique;
pub mod unrefused;
