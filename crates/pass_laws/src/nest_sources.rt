//! Laws of nests and the loops that they come from.
ghost use Rattle.pass_laws.specs.nest_sources.Sources.{PartsAreStatements, NestIsLoop};

/// The parts of a block of assignments, loops, IFs, labels and jumps stand for its statements, but for line numbers,
/// marks and the texts of increments.
#[tactic(auto, using(crate::proofs::NestSources::Sources::parts_are_statements))]
pub fn parts_of_statements()
    ensures { PartsAreStatements }
{}

/// So does the body of a nest for its loop.
#[tactic(auto, using(crate::proofs::NestSources::Sources::nest_is_loop))]
pub fn nest_of_loop()
    ensures { NestIsLoop }
{}
