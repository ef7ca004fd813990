//! Laws of values and runs. A law is a function without a body: its contract is what holds.
ghost use Rattle.meaning.specs.Agreement.{StatementsKeepAgreement};
ghost use Rattle.meaning.specs.Cells.{CellsAreWithin, SameCellIsOne};
ghost use Rattle.meaning.specs.Cuts.{CutRunIsFront, LimitHolds, WholeRunIsNotCut};
ghost use Rattle.meaning.specs.Exchange.{AssignmentsExchange};
ghost use Rattle.meaning.specs.Jumps.{EveryRunEnds};
ghost use Rattle.meaning.specs.Numerals.{InputNumberIsNumeral, PrintedNumberIsRead};
ghost use Rattle.meaning.specs.Ranges.{RunKeepsCells, RunKeepsRange, ValuesFit};
ghost use Rattle.meaning.specs.CellsRead.{ArrayComesFromCellsRead, ValueComesFromCellsRead, ValueComesFromNames};
ghost use Rattle.meaning.specs.Relined.{Relined, RelinedEndsWell};
ghost use Rattle.meaning.specs.Widths.{ProgramWidens, ValueHasNoWidth};

/// The cells of a name are those within its bounds, and two cells are the same where they are equal.
pub fn cells_of_a_name()
    ensures same { SameCellIsOne }
    ensures cells { CellsAreWithin }
{}

/// A number in the input is a decimal numeral with an optional sign, and a number that is printed is read back.
pub fn numbers_in_texts()
    ensures input { InputNumberIsNumeral }
    ensures printed { PrintedNumberIsRead }
{}

/// An expression's value, and an array's elements, depend on nothing but the cells that it reads and the bounds of its
/// names.
pub fn value_from_cells()
    ensures cells { ValueComesFromCellsRead }
    ensures arrays { ArrayComesFromCellsRead }
    ensures names { ValueComesFromNames }
{}

/// Statements over a program's names take moments that agree on the program to moments that agree on it.
pub fn kept_agreement()
    ensures { StatementsKeepAgreement }
{}

/// Expressions give numbers of 128 bits, and a run stores numbers in the range of INTEGER, in the cells that there were
/// when it began.
#[tactic(auto, using(crate::proofs::Kept::run_keeps_range, crate::proofs::Kept::run_keeps_cells))]
pub fn numbers_in_range()
    ensures values { ValuesFit }
    ensures store { RunKeepsRange }
    ensures cells { RunKeepsCells }
{}

/// A program of FORTRAN 77 is one with a wider range of INTEGER too, and the range has no part in the values of its
/// expressions.
pub fn wider_integers()
    ensures program { ProgramWidens }
    ensures value { ValueHasNoWidth }
{}

/// Two assignments that touch different cells may be exchanged.
pub fn exchanged_assignments()
    ensures { AssignmentsExchange }
{}

/// Each run ends: by its definition it is one state, and no jump leaves a program whose jumps lead forward.
#[tactic(auto, using(crate::proofs::Arriving::every_run_ends, crate::proofs::Kept::whole_run_is_not_cut))]
pub fn run_ends()
    ensures known { EveryRunEnds }
    ensures whole { WholeRunIsNotCut }
{}

/// A run that is cut at a limit of steps is the front of the run with a greater limit or without one.
#[tactic(auto, using(crate::proofs::Limit::cut_run, crate::proofs::Limit::limit_holds))]
pub fn cut_run()
    ensures front { CutRunIsFront }
    ensures limit { LimitHolds }
{}

/// Programs that differ in nothing but their names, the numbers of their lines and their marks have one run, but for
/// the line of a fault.
#[tactic(auto, using(crate::proofs::Relines::relined, crate::proofs::Relines::relined_ends_well))]
pub fn relined_run()
    ensures run { Relined }
    ensures ends_well { RelinedEndsWell }
{}
