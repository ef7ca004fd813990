//! The numbers of loops and nests.
ghost use Rattle.translation.specs.loop_numbers.Laws.{LoopNumbersCount, LoopsAreNumbered, NestsAreNumbered};
ghost use Rattle.tree.specs.declared.width.Width.{Width};

/// Two loops of a program of FORTRAN 77 with one number are one loop.
pub fn loops_are_numbered()
    ensures { (width : Width) → LoopsAreNumbered width }
{}

/// Each nest of a program of FORTRAN 77 has a greater number than those before it, and so has its outermost loop.
pub fn nests_are_numbered()
    ensures { (width : Width) → NestsAreNumbered width }
{}

/// The outermost loop of a nest has a number from 1 on.
pub fn loop_numbers_count()
    ensures { LoopNumbersCount }
{}
