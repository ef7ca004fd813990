//! A program with blocks in the place of some loops is of the profile of Fortran 90.
ghost use Rattle.translation.specs.placed_profile.Laws.{PlacedProgramIsProgram};
ghost use Rattle.tree.specs.declared.width.Width.{Width};

/// A program of FORTRAN 77, with further made names and with blocks of the profile, without labels and jumps, in the
/// place of loops that no jump leaves, is a program of Fortran 90, within the limits on its statements.
pub fn placed_program_is_program()
    ensures { (width : Width) → PlacedProgramIsProgram width }
{}
