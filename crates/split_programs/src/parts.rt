//! The pieces of loops that are cut. A law is a function without a body: its contract is what holds.
ghost use Rattle.split_programs.specs.Parts.{PiecesPartPairs};

/// In no piece of a loop that was cut do the sides of a pair meet that gave one of its points.
pub fn pieces_part_pairs()
    ensures { PiecesPartPairs }
{}
