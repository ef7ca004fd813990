//! What was made for private scalars, in an expanded nest whose loops have moved. A law is a function without a body:
//! its contract is what holds.
//!
//! **How it is proved.** Loops move only where no trip has a loop's variable in it, so the nest has the same instances
//! in any order of its loops, each by its iterations in another order, and no element is copied to its scalar in it. A
//! made array's subscripts are variables of loops, which canonical text leaves as they are.
ghost use Rattle.listing.specs.arrays.Laws.{ArrangedNestHasGuardedNames, ArrangedNestHasNoPrivateScalars};
ghost use Rattle.tree.specs.declared.width.Width.{Width};

/// The guarded statements of an expanded nest with its loops moved name elements of its arrays whatever their guards
/// are.
pub fn arranged_nest_has_guarded_names()
    ensures { (width : Width) → ArrangedNestHasGuardedNames width }
{}

/// In an expanded nest with its loops moved a scalar that was private stands only where its element is copied to it.
pub fn arranged_nest_has_no_private_scalars()
    ensures { ArrangedNestHasNoPrivateScalars }
{}
