//! Loops that gather, and the one statement in the place of each. A law is a function without a body: its contract is
//! what holds.
//!
//! With acc = a + c (or a - c) at each point, c is a difference of two numbers of the range of INTEGER, so it has one
//! bit more at most, and partial sums from 0 are within 128 bits for any INTEGER of at most 64 bits; nothing is asked
//! of the values that are added. A greatest and a least value are folds of what groups either way.
ghost use Rattle.reduction_laws.specs.gathering.Gathering.{GatheringIsForm, GatheringIsPlainForm};
ghost use Rattle.reduction_laws.specs.gathering.Gathering.{GatheringIsPlainSection, GatheringIsSection};

/// A loop that only gathers a sum, a greatest or a least value in x leaves, where it meets no fault, what one statement
/// with SUM, MAXVAL or MINVAL of the list of all values leaves, but for the loop's variable.
pub fn gathered_list()
    ensures tested { GatheringIsForm }
    ensures plain { GatheringIsPlainForm }
{}

/// So it does with a section, where the values are those of a reference with the loop's variable as one subscript.
pub fn gathered_section()
    ensures tested { GatheringIsSection }
    ensures plain { GatheringIsPlainSection }
{}
