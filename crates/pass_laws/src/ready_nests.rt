//! What is made of the nests of a program, with loops from 1 by 1, may be tested for dependences.
ghost use Rattle.pass_laws.specs.ready_nests.Distinct.{FoundLoopsAreDistinct, NormalLoopsAreThose};
ghost use Rattle.pass_laws.specs.ready_nests.Ready.{NormalNestIsReady};
ghost use Rattle.pass_laws.specs.ready_nests.Trips.{NormalTripsAreForms};

/// The loops of a nest that is found have different numbers.
pub fn found_loops()
    ensures { FoundLoopsAreDistinct }
{}

/// What is made of a nest has its loops, each with its number.
pub fn normal_loops()
    ensures { NormalLoopsAreThose }
{}

/// The trips of its loops are forms over the loops round them.
pub fn normal_trips()
    ensures { NormalTripsAreForms }
{}

/// What is made of a nest that is found may be tested for dependences.
pub fn normal_nest()
    ensures { NormalNestIsReady }
{}
