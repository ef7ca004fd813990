//! Laws of the points at which nests are cut. A law is a function without a body: its contract is what holds.
ghost use Rattle.split_laws.specs.Cuts.{CutPairsNeverMeet};

/// Where the loop of a nest is cut at its points, no two different iterations of one piece make the sides of a pair
/// equal that gave one of them.
pub fn cut_pairs_never_meet()
    ensures { CutPairsNeverMeet }
{}
