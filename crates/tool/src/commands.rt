//! The words after the program's name.
//!
//! Proved (`request`): the words are the request that the definition has for them, or none, for any list of words; laws
//! on options: `--steps=N` is `--steps N`, their order doesn't matter, and five words are the most.
//!
//! **Words are read by hand.** The word behind `--steps` is always its number, so `--steps --final` is no command.
//!
//! **A command is given a deck, and `make N` makes one.** So a request is either of both, and what is said of commands
//! and their decks needs no case for a request without one.
mod commands;
mod laws;
mod numbers;
mod words;

pub use commands::{Command, Options, Request};
pub use laws::{at_most_five_words, number_attached_or_apart, options_in_any_order};
pub(crate) use numbers::number;
pub use words::request;
