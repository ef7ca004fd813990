//! A law is a function without a body: its contract is what holds.
ghost use Rattle.prepared_passes.specs.splitting.Elements.{SplitNestHasElements, SplitNestHasGuardedNames};
ghost use Rattle.prepared_passes.specs.splitting.Kept.{CopyNamesAreApart, CopyNamesAreTheirOwn, SplitNestHasCopies};
ghost use Rattle.prepared_passes.specs.splitting.Kept.{SplitNestHasNoPrivateScalars, SplitNestKeepsLoops};
ghost use Rattle.prepared_passes.specs.splitting.Kept.{SplitNestKeepsRest, SplitsWithAnythingBehind};
ghost use Rattle.prepared_passes.specs.splitting.Laws.{CopiesAreFresh, SplitMayStandFor, SplitNestGoesOnAsNest};
ghost use Rattle.prepared_passes.specs.splitting.Laws.{SplitNestIsPrepared};
ghost use Rattle.tree.specs.declared.width.Width.{Width};

/// By declarations without the arrays of copies, these stand nowhere in a prepared nest.
pub fn copies_are_fresh()
    ensures { CopiesAreFresh }
{}

/// The split nest is prepared by the same declarations.
pub fn split_nest_is_prepared()
    ensures { SplitNestIsPrepared }
{}

/// It goes on as the nest does, but for the copies.
pub fn split_nest_goes_on_as_nest()
    ensures { (width : Width) → SplitNestGoesOnAsNest width }
{}

/// So it may stand for the nest.
pub fn split_may_stand_for()
    ensures { (width : Width) → SplitMayStandFor width }
{}

/// It is the nest but for its statements and the arrays of copies.
pub fn split_nest_keeps_rest()
    ensures rest { SplitNestKeepsRest }
    ensures loops { SplitNestKeepsLoops }
    ensures behind { SplitsWithAnythingBehind }
{}

/// Copies are numbered, and have names of their own.
pub fn copy_names()
    ensures numbered { SplitNestHasCopies }
    ensures apart { CopyNamesAreApart }
    ensures own { CopyNamesAreTheirOwn }
{}

/// Private scalars don't come back.
pub fn split_nest_has_no_private_scalars()
    ensures { SplitNestHasNoPrivateScalars }
{}

/// Its guarded statements name elements of made arrays whatever their guards are.
pub fn split_nest_has_guarded_names()
    ensures elements { SplitNestHasElements }
    ensures names { (width : Width) → SplitNestHasGuardedNames width }
{}
