//! Which statements of a nest become array statements.
ghost use Rattle.emission.specs.emission_marks.Laws.{EmissionIsMarked, EmissionKeepsTogether};

/// In what is emitted for a nest each of its statements bears its mark just once, in array form from the least level on
/// at which it is alone, within the loops before that level.
pub fn emission_is_marked()
    ensures { EmissionIsMarked }
{}

/// In what is emitted for a nest two statements stand in one loop of a level exactly where they are in one component of
/// the graph there.
pub fn emission_keeps_together()
    ensures { EmissionKeepsTogether }
{}
