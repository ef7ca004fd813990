//! Laws of listings: what was listed is read from their lines, which may stand as notes before a printed program.
#![tactic(auto)]

pub mod notes;
pub mod prepared;
pub mod read_back;
pub mod reader;
pub mod told_nests;
