//! What nests do beside the loops that they come from.
ghost use Rattle.pass_laws.specs.nest_loops.Runs.{FoundNestRuns};

/// A nest that is found in a program of the profile does from each moment what its loop does: with the same faults, the
/// same output and input, and as many steps, under any limit of steps and in both dialects.
pub fn nest_runs_as_loop()
    ensures { FoundNestRuns }
{}
