//! The run of a nest of loops and statements beside that of its loops from 1 by 1.
ghost use Rattle.pass_laws.specs.normal_runs.Laws.{BodyBeside};

/// Where a nest's run ends without fault, so does that of its normal body, in a store that is the same but for counters
/// and those loop variables that get their last values behind all loops (Allen and Kennedy, section 4.2).
pub fn body_beside()
    ensures { BodyBeside }
{}
