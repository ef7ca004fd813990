//! Laws of scalar expansion. A law is a function without a body: its contract is what holds.
ghost use Rattle.scalar_expand.specs.Endings.{LastValuesGoOn};
ghost use Rattle.scalar_expand.specs.Laws.{ExpandedLoopGoesOn, ExpandedNestGoesOn};
ghost use Rattle.scalar_expand.specs.Numbers.{ExtentsCover, TripsEnd};

/// A loop in which private scalars have become arrays goes on beside the loop.
pub fn expanded_loop_goes_on()
    ensures { ExpandedLoopGoesOn }
{}

/// The loops of an expanded nest go on beside those of the nest.
pub fn expanded_nest_goes_on()
    ensures { ExpandedNestGoesOn }
{}

/// The statements behind the loops of an expanded nest leave each scalar of the program as the nest leaves it.
pub fn last_values_go_on()
    ensures { LastValuesGoOn }
{}

/// The arrays have elements for all iterations, in triangles too.
pub fn extents_cover()
    ensures { ExtentsCover }
{}

/// What is asked of trips and last iterations is so of their numbers.
pub fn trips_end()
    ensures { TripsEnd }
{}
