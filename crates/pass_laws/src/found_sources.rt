//! What the profile of FORTRAN 77 gives of the nests that are found in a program.
ghost use Rattle.pass_laws.specs.found_sources.Laws.{FoundNestIsSource, NormalNestIsPlain};
ghost use Rattle.tree.specs.declared.width.Width.{Width};

/// A nest that was found in a program of FORTRAN 77 is one whose run stands beside that of its loops from 1 by 1.
pub fn found_nest_is_source()
    ensures { (width : Width) → FoundNestIsSource width }
{}

/// What is made of such a nest has loops from 1 by 1 and statements alone, where no IF stands in it.
pub fn normal_nest_is_plain()
    ensures { (width : Width) → NormalNestIsPlain width }
{}
