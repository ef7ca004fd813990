//! Laws of normalised nests. A law is a function without a body: its contract is what holds.
ghost use Rattle.normal_loops.specs.Laws.{NormalisedCountsByOne};

/// Each loop of a normalised nest goes from 1 by 1, and has its trip.
#[tactic(auto, using(crate::proofs::CountLaws::normalised_counts))]
pub fn counts_by_one()
    ensures { NormalisedCountsByOne }
{}
