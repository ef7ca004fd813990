//! Laws of nests with inductions substituted. A law is a function without a body: its contract is what holds.
ghost use Rattle.inductions.specs.Laws.{FormsKeepProfile, NoInductionIsWritten, SubstitutedLoopsLead, TheWriteGrows};

/// No induction of a nest of loops and statements is written any more.
pub fn no_induction_is_written()
    ensures { NoInductionIsWritten }
{}

/// The forms that stand for INTEGER scalars keep the profile of a program, and raise no depth by more than 5.
pub fn forms_profile()
    ensures { FormsKeepProfile }
{}

/// The statement that writes an induction lets it grow by its step in each turn of the outermost loop.
pub fn the_write_grows()
    ensures { TheWriteGrows }
{}

/// The loops with the forms of the inductions, and without the statements that write them, go on beside the nest's.
pub fn substituted_loops_lead()
    ensures { SubstitutedLoopsLead }
{}
