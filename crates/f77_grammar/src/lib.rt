//! What the text of a FORTRAN 77 program is: cards, expressions, statements, and the programs that these form.
//!
//! Proved (laws): every source of fixed form is one list of statements or has one refusal, never both
//! (`source_is_read_or_refused`).
//!
//! **The causes of a refusal are one relation, and which one is answered is said once.** `IsAnswered` of `Cards` takes
//! any relation of causes and says: the least number, then the first line. Later refusals can take the same form.
//!
//! **Statements are related to their characters form by form, without an order.** `IsWritten` says of each form how it
//! is written. That no text has two forms, and which one is to be looked for, is a law above it
//! (`f77_words/proofs/keywords/Recognised`), not part of the definition; the order of recognition matters for the words
//! of refusal 7 alone, where it is part of what they mean.
//!
//! **`GOTO (10),` has no form and no word.** The comma behind the list of labels may be left out, but what follows has
//! to be something: a comma alone is nothing.
#![tactic(auto)]

mod cards;
mod directions;
pub mod syntax;

pub use cards::source_is_read_or_refused;
pub use directions::Direction;
