//! Programs in which other statements stand in the place of some loops.
ghost use Rattle.translation.specs.placed_loops.Laws.{PlacedLoopsKeepMeaning};
ghost use Rattle.tree.specs.declared.width.Width.{Width};

/// Where each block that stands in the place of a loop does, with arrays as values, what the loop does, the whole
/// program does: wherever its sequential run ends without fault, so does the array run, with the same output.
pub fn placed_loops_keep_meaning()
    ensures { (width : Width) → PlacedLoopsKeepMeaning width }
{}
