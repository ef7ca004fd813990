//! Laws of split programs. A law is a function without a body: its contract is what holds.
ghost use Rattle.split_laws.specs.Loops.{LoopsOverPiecesRunAsLoop};
ghost use Rattle.split_laws.specs.Split.{SplitProgramIsSplit};

/// Each loop of a program that stands in no nest has become, in the split program, what the answer to it says: a kept
/// loop stands round what has become of its body, the loop of a nest stays or gives way to loops over its pieces.
pub fn split_program_is_split()
    ensures { SplitProgramIsSplit }
{}

/// The loops over the pieces of a loop run as the loop does, where its parameters have values.
pub fn cut_loop_runs_as_loop()
    ensures { LoopsOverPiecesRunAsLoop }
{}
