//! The profile of a split program. A law is a function without a body: its contract is what holds.
ghost use Rattle.split_programs.specs.Profiles.{SplitProgramIsOfProfile};

/// What a program of FORTRAN 77 is split to is a program of FORTRAN 77.
pub fn split_program_is_of_profile()
    ensures { SplitProgramIsOfProfile }
{}
