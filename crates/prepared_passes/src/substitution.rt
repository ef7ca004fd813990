//! A law is a function without a body: its contract is what holds.
ghost use Rattle.prepared_passes.specs.substitution.Laws.{InductionsAreSubstitutedWithAnythingBehind};
ghost use Rattle.prepared_passes.specs.substitution.Laws.{SubstitutedNestIsPrepared, SubstitutedNestRunsAlike};
ghost use Rattle.tree.specs.declared.width.Width.{Width};

/// The nest with its inductions substituted comes to the same moment but for the number of steps.
pub fn substituted_nest_runs_alike()
    ensures { (width : Width) → SubstitutedNestRunsAlike width }
{}

/// It is prepared by the same declarations.
pub fn substituted_nest_is_prepared()
    ensures { SubstitutedNestIsPrepared }
{}

/// Inductions are substituted whatever stands behind it.
pub fn inductions_are_substituted_with_anything_behind()
    ensures { InductionsAreSubstitutedWithAnythingBehind }
{}
