//! Each text of Fortran 90 is read or refused, in the sense that none is neither.
//!
//! Proved (laws): no text is neither read nor refused (`text_is_read_or_refused`); that none is both is a law of
//! `f90_laws::readings`. A text with too many names and no other cause is refused for its names
//! (`names_alone_are_refused`). The first law is classical: it rules out that a text has no answer, and gives none.
//!
//! **That a text of Fortran 90 is read or refused is said by a double negation.** The law is about the definitions, and
//! nothing there decides whether characters are those of a statement: the readers do, and they may run out of memory.
//! What can't be denied of each statement can't be denied of all, since they are finitely many; so a text that isn't
//! refused has statements, forms and a block (`f90_read::one_answer`). The law stands at the edge, so that nothing
//! waits for its proof.
ghost use Rattle.f90_read.specs.one_answer.Settled.{TextIsReadOrRefused, NamesAloneAreRefused};

/// No text is neither read nor refused.
pub fn text_is_read_or_refused()
    ensures { TextIsReadOrRefused }
{}

/// A text that has too many names, and no other cause, is refused for its names.
pub fn names_alone_are_refused()
    ensures { NamesAloneAreRefused }
{}
