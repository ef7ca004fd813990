//! Linear forms of expressions, and their canonical text.
//!
//! Proved (`linear`): an expression's linear form in the given loops and symbols, or None exactly where it has none
//! within the limits; `express` gives the canonical text of a form, with divided trips as further places behind the
//! symbols; `canonical_text` that of a linear expression. As laws: an expression with a form has the form's number as
//! its value, without fault (`linear_value`), and so has a form's canonical text (`text_value`). The text that
//! `express` writes of an affine form is the canonical text of the form that it stands for (`affine_text`), so within
//! the limits, wherever the names hold numbers of 64 bits and the trips have such values, its value is the form's
//! number too (`affine_text_value`). Where a linear expression has a value, its canonical text has the same, whatever
//! the names hold (`text_kept_value`). Bringing each node in which a loop's variable stood into canonical text twice is
//! as once (`canonical_text_stays`, `canonical_block_stays`). Where loops and symbols are INTEGER scalars, canonical
//! text keeps the profile (`canonical_profile`): a node's text has its kind and rank and is no deeper than it or than
//! 18, since it has at most 15 terms and a constant; so a block of a program of the profile becomes one again, in which
//! no depth has risen by more than 18.
//!
//! **Canonical text keeps a value in every store.** That names hold numbers isn't asked: a name whose coefficient isn't
//! 0 was evaluated, so it holds a number where the expression had a value. Only that each number that is held has at
//! most 64 bits is, and this is kept by every store of a value in the range. So the rule needs no kinds of names.
//!
//! **A divided trip is an expression that is given with the names.** `express` takes the divided trips as a list behind
//! the symbols, so a form needs no place of another kind; `linear` never gives a form with a trip.
//!
//! **That canonical text keeps the profile is asked only where loops and symbols are INTEGER scalars.** `A - A` of an
//! array A would become 0, which has no rank.
#![tactic(auto)]

mod canonical;
mod constants;
mod forms;
mod laws;
mod terms;
mod texts;

pub use canonical::canonical_text;
pub use constants::{constant_value, known};
pub use forms::{Part, constant_part, linear, name_form, pair_part, part_of, sign_part};
pub use laws::{
    affine_text, affine_text_value, canonical_block_stays, canonical_profile, canonical_text_stays,
    linear_value, text_kept_value, text_value,
};
pub use terms::{Terms, ZERO, combined, constant_form};
pub use texts::express;
