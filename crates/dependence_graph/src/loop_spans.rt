//! The spans of loops: where each begins and ends, as far as that is known before a nest is run.
//!
//! - Proved (`spans_of`): the spans of a chain of loops, each by those outside it: a constant trip is fixed; one with
//!   loop variables and no symbol ends at its greatest value over the iterations of the loops round it, at 0 where that
//!   is negative or one of these loops is empty, and isn't known above 2^40; any other isn't known. There is exactly
//!   one such span. Want of memory is the only error.
//!
//! **The spans of loops are a relation, and one function meets it.** `IsSpan` says what a span is by the greatest trip
//! over all iterations; the code looks at one corner for each coefficient. That the corner is the greatest is a lemma,
//! and so is that no other span is one, from which two statements in one loop have one span for it.
mod chains;
mod trips;

pub use chains::spans_of;
pub use trips::span_after;
