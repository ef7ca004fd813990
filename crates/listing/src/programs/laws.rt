//! A law is a function without a body: its contract is what holds.
ghost use Rattle.listing.specs.programs.Laws.{ListedNestIsTestable, ListedNestsAreExpanded, ListedNestsHaveCauses};
ghost use Rattle.listing.specs.programs.Laws.{ListedNestsAreSubstituted, LoopsAreListed};
ghost use Rattle.tree.specs.declared.width.Width.{Width};

/// A nest that is listed with a graph, of one of a program of FORTRAN 77, can be tested.
pub fn listed_nests_are_testable()
    ensures { (width : Width) → ListedNestIsTestable width }
{}

/// A nest whose loops can be listed, and for which masks can be made, is listed.
pub fn loops_are_listed()
    ensures { LoopsAreListed }
{}

/// In no nest of a listing a scalar is left that was private before expansion, but where its element is copied to it.
pub fn listed_nests_are_expanded()
    ensures { (width : Width) → ListedNestsAreExpanded width }
{}

/// In no nest of a listing an induction of the nest before substitution is written.
pub fn listed_nests_are_substituted()
    ensures { (width : Width) → ListedNestsAreSubstituted width }
{}

/// Each statement that stands in a loop of what is emitted for a nest of a listing has a cycle there, or is by itself
/// and held there.
pub fn listed_nests_have_causes()
    ensures { (width : Width) → ListedNestsHaveCauses width }
{}
