//! The nests that are found in a program have what the law of nests with IFs and jumps asks for.
ghost use Rattle.pass_laws.specs.branch_sources.Laws.{FoundNestIsBranchedSource, FoundNestKeepsMeaning};
ghost use Rattle.tree.specs.declared.width.Width.{Width};

/// A nest that was found in a program of FORTRAN 77 has its jumps within its loops, and what else the law asks for of
/// the meaning of nests with block IFs and jumps.
pub fn found_nest_is_branched_source()
    ensures { (width : Width) → FoundNestIsBranchedSource width }
{}

/// Loop normalization keeps the meaning of each nest that is found in a program of FORTRAN 77.
pub fn found_nest_keeps_meaning()
    ensures { (width : Width) → FoundNestKeepsMeaning width }
{}
