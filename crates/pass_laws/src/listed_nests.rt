//! What a nest is listed as.
ghost use Rattle.pass_laws.specs.listed_nests.Laws.{ListedNestIsNormal, ListedNestIsOne, NormalNestIsListed};

/// The nest with loops from 1 by 1 of a nest is what is listed of it.
#[tactic(auto, using(crate::proofs::ListedNests::ListedNests::normal_nest_is_listed))]
pub fn normal_nest_is_listed()
    ensures { NormalNestIsListed }
{}

/// No other loops and statements are listed.
#[tactic(auto, using(crate::proofs::ListedNests::ListedNests::listed_nest_is_normal))]
pub fn listed_nest_is_normal()
    ensures { ListedNestIsNormal }
{}

/// So one list of loops, each with its trip, and one of statements.
#[tactic(auto, using(crate::proofs::ListedNests::ListedNests::listed_nest_is_one))]
pub fn listed_nest_is_one()
    ensures { ListedNestIsOne }
{}
