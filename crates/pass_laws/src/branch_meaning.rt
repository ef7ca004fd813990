//! A nest with block IFs and jumps whose loops were made to go from 1 by 1 keeps its meaning.
ghost use Rattle.pass_laws.specs.branch_meaning.Laws.{BranchedFormKeepsMeaning};

/// Loop normalization keeps the meaning of a nest in whose loops block IFs, labels and jumps forward stand (Allen and
/// Kennedy, "Optimizing Compilers for Modern Architectures", section 4.2): where its run ends without fault, so does
/// that of the nest with loops from 1 by 1 and what comes after it, in the same store but for the counters.
pub fn branched_form_keeps_meaning()
    ensures { BranchedFormKeepsMeaning }
{}
