//! Laws of the order of loops. A law is a function without a body: its contract is what holds.
ghost use Rattle.interchange.specs.Laws.{ChainsAreLoops, LoopsAreExchanged, MovesAreExchanges, OrderIsReached};
ghost use Rattle.interchange.specs.Worked.{AnyStays, BackwardStays, FitOneMoves, OtherTripStays, ProductIsOrdered};
ghost use Rattle.interchange.specs.Worked.{SameTripMoves, TwoMove};

/// The order of the loops comes about by moves outwards, each of a loop that may be moved, and no dependence leads back
/// in it where none did at first. A move is exchanges of neighbours, and so are the loops exchanged.
pub fn order_of_loops()
    ensures reached { OrderIsReached }
    ensures exchanges { MovesAreExchanges }
    ensures loops { LoopsAreExchanged }
{}

/// A part that has a chain is just that chain of loops round its statements.
pub fn chains_are_loops()
    ensures { ChainsAreLoops }
{}

/// The orders of three loops, worked: the matrix product, two moves, a vector with `>` or `*` that forbids one, a loop
/// passed over, and trips of symbols.
pub fn worked_orders()
    ensures product { ProductIsOrdered }
    ensures two { TwoMove }
    ensures backward { BackwardStays }
    ensures any { AnyStays }
    ensures fit { FitOneMoves }
    ensures same_trip { SameTripMoves }
    ensures other_trip { OtherTripStays }
{}
