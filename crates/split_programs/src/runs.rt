//! The run of a split program. A law is a function without a body: its contract is what holds.
ghost use Rattle.split_programs.specs.Runs.{MeaningIsHandedOn, SplitProgramRunsAsSource};
ghost use Rattle.tree.specs.declared.width.Width.{Width};

/// A split program comes to the same moment as the program that it was made of, so what keeps its meaning keeps that of
/// its source.
pub fn split_program_runs_as_source()
    ensures run { SplitProgramRunsAsSource }
    ensures meaning { (width : Width) → MeaningIsHandedOn width }
{}
