//! Laws of expanded nests. A law is a function without a body: its contract is what holds.
ghost use Rattle.prepared_passes.specs.expansion.Allowed.{PreparedNestMayBeExpanded};
ghost use Rattle.prepared_passes.specs.expansion.Kept.{ExpandedNestKeepsLoops};
ghost use Rattle.prepared_passes.specs.expansion.Laws.{PreparedNestIsExpandable, PreparedTextsTell};
ghost use Rattle.prepared_passes.specs.expansion.Left.{ExpandedNestHasNoPrivateScalars};
ghost use Rattle.prepared_passes.specs.expansion.Prepared.{ExpandedNestIsPrepared};
ghost use Rattle.prepared_passes.specs.expansion.Runs.{PreparedNestRunsExpanded};
ghost use Rattle.prepared_passes.specs.expansion.Sizes.{ExtentTextsHaveNumbers};

/// A prepared nest has what its loops need to go on beside those of the expanded nest.
pub fn prepared_nest_is_expandable()
    ensures { PreparedNestIsExpandable }
{}

/// The texts of its trips that are the same in all turns say how often its loops turn.
pub fn prepared_texts_tell()
    ensures { PreparedTextsTell }
{}

/// A prepared nest and the expanded one run beside each other, with what stands behind their loops.
pub fn prepared_nest_runs_expanded()
    ensures { PreparedNestRunsExpanded }
{}

/// The loops of a prepared nest stay where they are, and as they are.
pub fn expanded_nest_keeps_loops()
    ensures { ExpandedNestKeepsLoops }
{}

/// The texts of extents that stand on no divided one have the numbers that arrays are allocated by, also where no loop
/// is entered.
pub fn extent_texts_have_numbers()
    ensures { ExtentTextsHaveNumbers }
{}

/// A prepared nest of one loop stays prepared, by declarations that have the arrays.
pub fn expanded_nest_is_prepared()
    ensures { ExpandedNestIsPrepared }
{}

/// A prepared nest of a program may be expanded where its arrays aren't declared yet.
pub fn prepared_nest_may_be_expanded()
    ensures { PreparedNestMayBeExpanded }
{}

/// Where a private scalar of a prepared nest of one loop still stands as a scalar, its element is copied to it.
pub fn expanded_nest_has_no_private_scalars()
    ensures { ExpandedNestHasNoPrivateScalars }
{}
