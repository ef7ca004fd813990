//! What the readers of both dialects share: what may stand before an operand, and why words aren't read.
//!
//! Proved: the sign that a word is, the word that a sign is, how tightly it binds and whether an operand that it stands
//! before begins with it (`Sign`); that words weren't read for want of memory is said wherever there was none (`Stop`).
#![tactic(auto)]

pub mod refusal_order;
mod signs;
mod stops;

pub use signs::Sign;
pub use stops::Stop;
