//! Each text of a card, and so each source of fixed form, is read or refused, and in one way alone.
//!
//! Proved (laws): the characters of a card are read as one statement or refused, by one cause and one word, and never
//! both (`card_is_read_or_refused`); so each source of fixed form is read or refused, never both, and read as one
//! program, in either range of INTEGER (`source_is_read_or_refused`). Nothing is assumed. What stands at the front of
//! words is decided without the code: an expression and a list of items by the reading machines of `f77_expressions`
//! and `f77_words::lists`, lists with commas part by part, labels, conditions and left-out words by scanning.
//!
//! **Every source is read or refused, by a law of its own crate.** The parser may run out of memory, so its contracts
//! leave that answer open. The law is about the definitions: what stands at the front of words is decided by the same
//! stepwise readers, as functions, and by their soundness and completeness (`f77_read::one_answer`). It stands at the
//! edge, so that nothing waits for its proof. It has a list of the keywords of its own, which two lemmas tie to the
//! grammar.
mod laws;

pub use laws::{card_is_read_or_refused, source_is_read_or_refused};
