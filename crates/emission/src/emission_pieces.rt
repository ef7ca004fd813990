//! Recursive emission of a nest, piece by piece, and the law that it is an order of the instances that keeps the edges.
ghost use Rattle.emission.specs.emission_pieces.Laws.{EmissionKeepsOrder, PiecesAreEmitted};

/// What is emitted for some statements of a nest, piece by piece, is what recursive emission gives for them (Allen and
/// Kennedy, section 2.4); a statement in array form stands for its instances in its further loops.
pub fn pieces_are_emitted()
    ensures { PiecesAreEmitted }
{}

/// What is emitted for a nest has each statement once, in its own loops, and an order of the instances that keeps the
/// edges of the graph.
pub fn emission_order()
    ensures { EmissionKeepsOrder }
{}
