//! A law is a function without a body: its contract is what holds.
ghost use Rattle.prepared_passes.specs.arrangement.Laws.{CanonicalTextFollows, MovedLoopsKeepMeaning};
ghost use Rattle.prepared_passes.specs.arrangement.Prepared.{ArrangedMayStandFor, ArrangedNestGoesOnAsNest};
ghost use Rattle.prepared_passes.specs.arrangement.Prepared.{ArrangedNestIsPrepared};
ghost use Rattle.tree.specs.declared.width.Width.{Width};

/// The nest with its loops moved keeps the meaning of the nest (Allen and Kennedy, section 5.2).
pub fn moved_loops()
    ensures { MovedLoopsKeepMeaning }
{}

/// Canonical text made anew after a move does what the moved text did.
pub fn canonical_text()
    ensures { CanonicalTextFollows }
{}

/// A prepared nest with its loops moved is prepared again.
pub fn arranged_nest_is_prepared()
    ensures { ArrangedNestIsPrepared }
{}

/// By the vectors of its graph it goes on as the nest does.
pub fn arranged_nest_goes_on_as_nest()
    ensures { (width : Width) → ArrangedNestGoesOnAsNest width }
{}

/// So it may stand for the nest.
pub fn arranged_may_stand_for()
    ensures { (width : Width) → ArrangedMayStandFor width }
{}
