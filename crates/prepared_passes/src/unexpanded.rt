//! Laws of the nest that is expanded: one with masks, whose symbols were found anew, inductions substituted and scalars
//! renamed. A law is a function without a body: its contract is what holds.
ghost use Rattle.prepared_passes.specs.expansion.Unexpanded.{FoundNestIsApartBehind, FoundNestIsUnexpanded};
ghost use Rattle.prepared_passes.specs.expansion.Unexpanded.{UnexpandedNestWritesNoInduction};
ghost use Rattle.tree.specs.declared.width.Width.{Width};

/// What stands behind the loops of a found nest with its symbols found anew names no induction of it, and gives no
/// value to a symbol.
pub fn found_nest_is_apart_behind()
    ensures { (width : Width) → FoundNestIsApartBehind width }
{}

/// Where masks and names of ranges are declared, the nest to be expanded is prepared, and goes on as the found nest
/// with its symbols found anew.
pub fn found_nest_is_unexpanded()
    ensures { (width : Width) → FoundNestIsUnexpanded width }
{}

/// No induction of that nest is written in the expanded one.
pub fn unexpanded_nest_writes_no_induction()
    ensures { (width : Width) → UnexpandedNestWritesNoInduction width }
{}
