//! A nest whose loops were made to go from 1 by 1 keeps its meaning.
ghost use Rattle.pass_laws.specs.normal_meaning.Laws.{NormalFormKeepsMeaning};

/// Loop normalization keeps the meaning of a nest of loops and statements alone (Allen and Kennedy, "Optimizing
/// Compilers for Modern Architectures", section 4.2): where its run ends without fault, so does that of the nest with
/// loops from 1 by 1 and what comes after it, in the same store but for the counters, also with no turn, with negative
/// increments, and with last values past the last turn.
pub fn normal_form_keeps_meaning()
    ensures { NormalFormKeepsMeaning }
{}
