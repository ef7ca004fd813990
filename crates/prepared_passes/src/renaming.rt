//! A law is a function without a body: its contract is what holds.
ghost use Rattle.prepared_passes.specs.renaming.Laws.{NamesAreFresh, NestIsRenamedWithAnythingBehind};
ghost use Rattle.prepared_passes.specs.renaming.Laws.{RenamedMayStandFor, RenamedNestGoesOnAsNest};
ghost use Rattle.prepared_passes.specs.renaming.Laws.{RenamedNestIsPrepared, RenamedNestKeepsRest};
ghost use Rattle.tree.specs.declared.width.Width.{Width};

/// By declarations without the names that are to be made, these stand nowhere in a prepared nest.
pub fn names_are_fresh()
    ensures { NamesAreFresh }
{}

/// The renamed nest is prepared by the same declarations.
pub fn renamed_nest_is_prepared()
    ensures { RenamedNestIsPrepared }
{}

/// It goes on as the nest does, but for the names that were made.
pub fn renamed_nest_goes_on_as_nest()
    ensures { (width : Width) → RenamedNestGoesOnAsNest width }
{}

/// So it may stand for the nest.
pub fn renamed_may_stand_for()
    ensures { (width : Width) → RenamedMayStandFor width }
{}

/// It is the nest but for its statements and the names that were made.
pub fn renamed_nest_keeps_rest()
    ensures { RenamedNestKeepsRest }
{}

/// Its scalars are renamed whatever stands behind it.
pub fn nest_is_renamed_with_anything_behind()
    ensures { NestIsRenamedWithAnythingBehind }
{}
