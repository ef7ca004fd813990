//! What is emitted for a nest by its dependence graph keeps the nest's meaning.
ghost use Rattle.emission.specs.emission_meaning.Laws.{EmissionKeepsMeaning};
ghost use Rattle.tree.specs.declared.width.Width.{Width};

/// Where the sequential run of a nest of loops and statements alone ends without fault, so does the array run of what
/// is emitted for it, in a store that is the same but for the loop variables.
pub fn emission_keeps_meaning()
    ensures { (width : Width) → EmissionKeepsMeaning width }
{}
