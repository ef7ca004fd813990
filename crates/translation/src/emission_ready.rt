//! The law that a nest which can be tested, with its dependence graph, is one for which statements are emitted.
ghost use Rattle.translation.specs.emission_ready.Laws.{ReadyNestsMayBeEmitted};

/// A nest that can be tested, with its dependence graph and fewer symbols than 16 bits have numbers, has all that
/// emission asks for.
pub fn ready_nests_may_be_emitted()
    ensures { ReadyNestsMayBeEmitted }
{}
