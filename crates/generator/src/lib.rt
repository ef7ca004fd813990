//! A deck of so many nests, drawn by a linear congruential generator.
//!
//! Proved (`generated`): the bytes are exactly those of the deck (`deck_of`), fewer than 2^24. Laws (`worked_decks`):
//! the decks of one nest and of two, written out.
//!
//! **What is drawn is a function of the state before it.** Each draw has one state, and a statement takes five draws, a
//! nest ten. So the text of a nest follows from the number of nests and from how many nests stand before it.
#![tactic(auto)]

mod decks;
mod draws;
mod laws;

pub use decks::generated;
pub use laws::worked_decks;
