//! Laws of the cycles that are listed of what is emitted for a nest.
ghost use Rattle.emission.specs.emission_causes.Laws.{LoopsHaveCauses};

/// Each statement that stands in a loop has a cycle there, which is the least of the shortest closed walks of
/// dependences at work at the level, or is by itself there and held; and no other cycle is listed.
pub fn causes_of_loops()
    ensures { LoopsHaveCauses }
{}
