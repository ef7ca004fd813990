//! What the dialect and further declarations do to the run of a program of FORTRAN 77: nothing.
//!
//! Proved (laws): a program of FORTRAN 77's profile has one and the same run in every two dialects with one range of
//! INTEGER, so its sequential run is its array run (`source_has_one_run`); with further declarations of names that no
//! source has it has the same ending, output and steps, and its own names the same values (`made_names_keep_run`).
ghost use Rattle.meaning_laws.specs.dialects.MadeNames.{ArrayRunWithMadeNames, MadeNamesKeepRun};
ghost use Rattle.meaning_laws.specs.dialects.OneRun.{SequentialRunIsArrayRun, SourceHasOneRun};
ghost use Rattle.tree.specs.declared.width.Width.{Width};

/// A program of FORTRAN 77 has one and the same run in FORTRAN 77 and in Fortran 90, whatever its input and its limit
/// of steps: store, output, faults and their lines are the same.
pub fn source_has_one_run()
    ensures dialects { SourceHasOneRun }
    ensures sequential { (width : Width) → SequentialRunIsArrayRun width }
{}

/// Further declarations of names that no source has leave a program's run as it was: its ending, output and steps, and
/// the values of its own names.
pub fn made_names_keep_run()
    ensures run { MadeNamesKeepRun }
    ensures array_run { (width : Width) → ArrayRunWithMadeNames width }
{}
