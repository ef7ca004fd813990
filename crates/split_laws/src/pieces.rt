//! Laws of loops over pieces. A law is a function without a body: its contract is what holds.
ghost use Rattle.split_laws.specs.Points.{CrossingPointParts, ZeroPointsPart};
ghost use Rattle.split_laws.specs.Pieces.{AssignmentsLeaveAlone, PiecesRunAsLoop, TextsHaveNumbers};

/// Loops over consecutive pieces of a loop's iterations run as the loop does.
pub fn loops_over_pieces()
    ensures { PiecesRunAsLoop }
{}

/// Bounds that are texts of linear forms within the limits have their numbers.
pub fn piece_bounds()
    ensures { TextsHaveNumbers }
{}

/// Assignments to other names leave the variable and the symbols as they are.
pub fn other_assignments()
    ensures { AssignmentsLeaveAlone }
{}

/// Where a loop is cut at the points of a pair of subscripts, no two different iterations of one piece make its sides
/// equal.
pub fn points_part()
    ensures zero { ZeroPointsPart }
    ensures crossing { CrossingPointParts }
{}
