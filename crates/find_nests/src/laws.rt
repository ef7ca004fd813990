//! Laws of nests and reasons. A law is a function without a body: its contract is what holds.
ghost use Rattle.find_nests.specs.Laws.{BoundIsByNumbers, FoundNestIsLoop, KeptIsLoop, NoReasonHolds, ReasonHolds};

/// Each nest that is found is a loop of the program of which no reason holds, and each loop round it is kept.
#[tactic(auto, using(crate::proofs::FoundLaws::found_nest_is_loop))]
pub fn found_nest()
    ensures { FoundNestIsLoop }
{}

/// Each loop that is kept is one of the program, with its first reason, and each loop round it is kept.
#[tactic(auto, using(crate::proofs::FoundLaws::kept_is_loop))]
pub fn found_kept()
    ensures { KeptIsLoop }
{}

/// Where no reason is given none holds.
#[tactic(auto, using(crate::proofs::FoundLaws::no_reason_holds))]
pub fn no_reason()
    ensures { NoReasonHolds }
{}

/// The reason that is given holds.
#[tactic(auto, using(crate::proofs::FoundLaws::reason_holds))]
pub fn reason_given()
    ensures { ReasonHolds }
{}

/// Where bounds are linear and increments suitable, BOUND holds exactly where a number of a loop has no form within the
/// limits.
#[tactic(auto, using(crate::proofs::BoundNumbers::Law::bound_is_by_numbers))]
pub fn bound_by_numbers()
    ensures { BoundIsByNumbers }
{}
