//! The statements of a FORTRAN 77 program, checked: the first thing that is found wrong in them.
//!
//! Proved: what is known of statements (`Known::of_text`), and all checks by it (`check`): nothing is answered exactly
//! where nothing is wrong (`ok`, `only_sound`); a refusal is that of the least number, at the first statement at which
//! its cause holds (`refused`), and where lines rise it is the one refusal of the text (`rising`, `only_refused`).
#![tactic(auto)]

mod causes;
pub mod kinds;
mod known;
mod limits;
mod places;
mod refusals;

pub use known::Known;
pub use refusals::check;
