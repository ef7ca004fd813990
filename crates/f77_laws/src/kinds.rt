//! The kinds of a FORTRAN 77 text and those of its tree are one rule.
//!
//! Proved (laws): kinds by the uses of names in a text and kinds by the declarations of its tree are one rule. An
//! expression of the text has a kind, and no name in it is used wrongly or hides the spelling of a call, exactly where
//! its tree has that kind and each name with a list is an array or a function (`kinds_are_one_rule`); asked is that
//! each symbolic constant is defined by an expression of its type and has a value, and of a text that is read not even
//! that. The same of each statement that declares nothing, against what the profile asks of its tree, where its DO
//! variables and its label are in order: so at a statement in which no name is misused the cause TypeClash holds
//! exactly where its tree doesn't suit (`statements_are_one_rule`). Each of the premises on names and constants is
//! needed, by worked texts (`premises_are_needed`).
//!
//! **The kind of a text and the kind of a tree are two definitions and one rule.** `has_kind` judges the expressions of
//! a source's text, by all uses of their names, before there is a tree; `HasKind` those of a tree, by its declarations,
//! whatever the tree comes from. A law says that they are one rule (`f77_laws::kinds`). It asks that symbolic constants
//! have values of their types, and three things of names, and each is needed. Beside a variable IABS the text `IABS(1)`
//! has no kind and is refused, while the tree, in which a call bears a function and no name, would have `ABS(1)`, which
//! has one: what stands with a list is an array or a function. Beside a variable ABS it is the other way round: no
//! variable has the name by which Fortran 90 calls the function. And an element has in the text the kind of its array
//! with any number of subscripts, since a wrong number is the cause Declared. The law stands in a crate of its own, at
//! the edge, so that nothing waits for its proof.
mod laws;

pub use laws::{kinds_are_one_rule, premises_are_needed, statements_are_one_rule};
