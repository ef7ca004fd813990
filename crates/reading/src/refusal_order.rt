//! Which of several causes a refusal is answered for: the least number, then the first line, then the least word. The
//! grammars of both dialects say so of their causes.
//!
//! Proved (a law): of findings, where there are any, one is answered, and one alone (`first_finding`).
//!
//! **The order of causes stands in a module of its own.** `reading::refusal_order` says which cause is answered, over
//! `tree` alone, so that the grammar of Fortran 90 doesn't hang on that of FORTRAN 77. `f77_grammar` still has its own
//! copy; to share it proves all crates of FORTRAN 77 anew.
ghost use Rattle.reading.specs.refusal_order.Answered.{OneFindingIsFirst, OnlyOneIsFirst};

/// Of findings, where there are any, one is answered, and only one. A law is a function without a body: its contract is
/// what holds.
pub fn first_finding()
    ensures some { OneFindingIsFirst }
    ensures one { OnlyOneIsFirst }
{}
