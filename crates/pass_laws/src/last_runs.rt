//! The last values of a nest's loop variables, behind all loops.
ghost use Rattle.pass_laws.specs.last_runs.Laws.{LastValuesBehind};

/// The statements behind all loops give each loop variable the value that the run of the nest leaves it with.
pub fn last_values_behind()
    ensures { LastValuesBehind }
{}
